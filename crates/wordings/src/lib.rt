// Answers in words, and the text around the place of a refusal.
#![tactic(auto)]

pub mod excerpts;
pub mod heads;
pub mod positions;
