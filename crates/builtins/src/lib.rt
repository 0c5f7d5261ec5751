// The built-in types: their numbers here, their names, the JSON kinds that they take and the ranges of the integer types in the modules.
// The numbers stay numbers, since they are the type references of a table's words, which C callers read (include/, `windosprio_compile_schema`).
#![tactic(auto)]

pub mod json;
pub mod kinds;
pub mod names;
pub mod ranges;

pub const STR: usize = 1;

pub const NUMBER: usize = 2;

pub const INT: usize = 3;

pub const INT8: usize = 4;

pub const INT16: usize = 5;

pub const INT32: usize = 6;

pub const INT64: usize = 7;

pub const UINT8: usize = 8;

pub const UINT16: usize = 9;

pub const UINT32: usize = 10;

pub const UINT64: usize = 11;

pub const SIZE: usize = 12;

pub const BOOL: usize = 13;

pub const NULL: usize = 14;

pub const ANY: usize = 15;

// A type reference from here on is to a row; and the same as a word of a row or a record.
pub const FIRST_ROW: usize = ANY + 1;

pub const FIRST_REFERENCE: u32 = FIRST_ROW as u32;
