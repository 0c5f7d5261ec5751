// A walk over the records of a message, one after another.
#![tactic(auto)]

pub mod reader;
pub mod records;
