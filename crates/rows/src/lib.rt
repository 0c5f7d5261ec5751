// Rows of a table, any words over any schema bytes: their words and children, their names, hashes of names, and an index of rows by name.
#![tactic(auto)]

pub mod hashes;
pub mod index;
pub mod names;
pub mod rows;
pub mod walk;
