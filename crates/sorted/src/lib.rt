// An order of spans of a text, and their numbers sorted by it: which of n spans is the first that is the same as one before it, whatever they are, in about n log n comparisons.
// Nothing is promised of the sorting. What is answered rests on a check of the list that it leaves.
#![tactic(auto)]

pub mod lists;
pub mod orders;
pub mod repeats;
pub mod spans;
