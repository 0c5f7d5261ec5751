// The records of a message as lines of a tree, as a person is shown them.
#![tactic(auto)]

pub mod depth;
pub mod labels;
pub mod shown;
pub mod tree;
pub mod types;
