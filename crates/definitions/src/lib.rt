// The definitions of a schema out of its nodes, by the table of keys, as raw rows.
#![tactic(auto)]

pub mod bodies;
pub mod definitions;
pub mod lists;
pub mod shapes;
pub mod source;
pub mod values;
pub mod writing;
