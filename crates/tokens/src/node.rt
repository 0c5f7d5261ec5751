// The kinds of nodes, as specs/NodeKinds names them: of each value and each key of a text. A plain string or key has neither a backslash nor a byte above 0x7F.
// Numbers and no enum: the contract of `read_message` speaks of lent words, which C also sees through the probe.
pub const NULL: u32 = 1;

pub const FALSE: u32 = 2;

pub const TRUE: u32 = 3;

pub const INTEGER: u32 = 4;

pub const OTHER_NUMBER: u32 = 5;

pub const PLAIN_STRING: u32 = 6;

pub const OTHER_STRING: u32 = 7;

pub const ARRAY: u32 = 8;

pub const OBJECT: u32 = 9;

pub const PLAIN_KEY: u32 = 10;

pub const OTHER_KEY: u32 = 11;
