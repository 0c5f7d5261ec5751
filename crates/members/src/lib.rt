// What an object of a message has at a type: the members that its keys mean, the branch that it chooses, and how many members are mandatory.
#![tactic(auto)]

pub mod chains;
pub mod mandatory;
pub mod objects;
