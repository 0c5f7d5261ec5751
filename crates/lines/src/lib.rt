// What the programs need of text: a page that bytes are put on, where a line ends, and numbers as decimal text.
#![tactic(auto)]

pub mod decimals;
pub mod ends;
pub mod page;
