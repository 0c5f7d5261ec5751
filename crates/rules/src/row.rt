// The words of a row, counted from 0, as specs/Rows names them. What stands in a word from the fourth on depends on the row's kind.
// They stay numbers, since C callers read a table word by word (include/, `windosprio_compile_schema`).
pub const KIND: usize = 0;

pub const START: usize = 1;

pub const SIZE: usize = 2;

// An enum's, a struct's or an alternate's count of children.
pub const COUNT: usize = 3;

// A struct's base link.
pub const BASE: usize = 4;

// A member's or an alternative's type reference; of a member, 1 if array and 1 if optional.
pub const TYPE_REF: usize = 3;

pub const ARRAY_MARK: usize = 4;

pub const OPTIONAL: usize = 5;

// A union's base link, its count of branches and the link of its discriminator member.
pub const UNION_BASE: usize = 3;

pub const BRANCH_COUNT: usize = 4;

pub const DISCRIMINATOR: usize = 5;

// A branch's struct link.
pub const BRANCH_STRUCT: usize = 3;

// A command's data struct link, 1 if allow-oob, its return type reference, 1 if that is an array.
pub const DATA_STRUCT: usize = 3;

pub const ALLOW_OOB: usize = 4;

pub const RETURNS: usize = 5;

pub const RETURNS_ARRAY: usize = 6;

// The link by which a union, its base, or a command, its data, owns an inline struct.
pub const OWNER_LINK: usize = 3;
