// The reading of a command's arguments: every value at its type, as records.
#![tactic(auto)]

pub mod contents;
pub mod kinds;
pub mod readings;
pub mod records;
pub mod types;
