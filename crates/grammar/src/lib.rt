// Texts: trees with places, the grammar of both dialects, and the laws about them. Of code it has the limits of texts, as specs/Limits has them.
#![tactic(auto)]

pub const SCHEMA_BYTES: usize = 32768;

pub const MESSAGE_BYTES: usize = 16384;

// The most levels of brackets; an outermost bracket is level 1.
pub const SCHEMA_LEVELS: usize = 8;

pub const MESSAGE_LEVELS: usize = 32;
