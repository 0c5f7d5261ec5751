// The compile call: a schema's bytes into the table of its rows.
#![tactic(auto)]

pub mod compile;
pub mod stages;
