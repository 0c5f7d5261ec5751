// Blanks, numbers, words, keys and what stands between values.
#![tactic(auto)]

pub mod blanks;
pub mod integers;
pub mod literals;
pub mod node;
pub mod scalars;
pub mod separators;
