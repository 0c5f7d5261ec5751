// The judge of sound tables: rules 5 to 11 over rows, the layout, and references, for any words over any schema bytes.
#![tactic(auto)]

pub mod alternates;
pub mod chains;
pub mod layout;
pub mod links;
pub mod looks;
pub mod names;
pub mod returns;
pub mod rule;
pub mod sound;
pub mod unions;
