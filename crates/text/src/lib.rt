// The reader of a whole text, in either dialect, into nodes.
#![tactic(auto)]

pub mod comparisons;
pub mod containers;
pub mod fields;
pub mod index;
pub mod keys;
pub mod nodes;
pub mod reader;
pub mod texts;
