// The message call: a message's bytes against a table, into the records of its arguments.
#![tactic(auto)]

pub mod asked;
pub mod check;
pub mod commands;
pub mod envelope;
