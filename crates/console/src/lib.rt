// What both programs do: schema.json is read and compiled, then each line of standard input is answered, in the style that the program names.
#![tactic(auto)]

pub mod answers;
pub mod files;
pub mod joins;
pub mod opening;
pub mod rooms;
pub mod run;
pub mod showing;
pub mod steps;
pub mod turns;
