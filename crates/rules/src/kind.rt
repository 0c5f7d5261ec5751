// The kinds of rows, as specs/Rows names them. A kind of definition is odd, and the kind of its children is the next one.
// They stay numbers, since C callers read them in a table's words (include/, `windosprio_compile_schema`).
pub const ENUM: u32 = 1;

pub const VALUE: u32 = 2;

pub const STRUCT: u32 = 3;

pub const MEMBER: u32 = 4;

pub const UNION: u32 = 5;

pub const BRANCH: u32 = 6;

pub const ALTERNATE: u32 = 7;

pub const ALTERNATIVE: u32 = 8;

pub const COMMAND: u32 = 9;
