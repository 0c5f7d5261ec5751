// Messages in pieces: a reader that takes the bytes of a stream as they come, in pieces of any size, and hands out whole messages.
#![tactic(auto)]

pub mod brackets;
pub mod chars;
pub mod literals;
pub mod mode;
pub mod pieces;
pub mod reader;
pub mod state;
pub mod steps;
