// Children of rows, as the keys and strings of a message ask for them: short lists are looked through, long ones have an index.
#![tactic(auto)]

mod hashes;
pub mod index;
pub mod lists;
mod lookup;
