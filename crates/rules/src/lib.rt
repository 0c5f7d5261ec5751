// The answers, the words of rows and the limits as values with names; their meaning stands in specs/. It has no code of its own.
#![tactic(auto)]

pub mod kind;
pub mod row;

// Why a schema is refused, in the order of the reference's table (Schema answers, 1 to 13).
#[derive(Clone, Copy)]
pub enum SchemaRefusal {
    TooLong,
    NotText,
    RepeatedKey,
    NotDefinitions,
    BadName,
    RepeatedName,
    UnknownName,
    BadChain,
    BadUnion,
    BadAlternate,
    BadReturn,
    TooManyRows,
    NoRoom,
}

// Accepted with a count of rows, or refused at a place.
#[derive(Clone, Copy)]
pub enum SchemaAnswer {
    Accepted(usize),
    Refused(SchemaRefusal, usize),
}

// Why a message is refused, in the order of the reference's table (Message answers, 21 to 30).
#[derive(Clone, Copy)]
pub enum MessageRefusal {
    UnsoundTable,
    TooLong,
    NotText,
    TooDeep,
    RepeatedKey,
    NotEnvelope,
    UnknownCommand,
    NotOutOfBand,
    NoReading,
    NoRoom,
}

// Accepted with the command's row and a count of records, or refused at a place.
#[derive(Clone, Copy)]
pub enum MessageAnswer {
    Accepted(usize, usize),
    Refused(MessageRefusal, usize),
}

// The place of a refusal that points at no byte (Reference, Places).
pub const NOWHERE: usize = 0;

// The limits and widths, as grammar's specs/Limits has them.
pub const SCHEMA_BYTES: usize = grammar::SCHEMA_BYTES;

pub const MESSAGE_BYTES: usize = grammar::MESSAGE_BYTES;

pub const NAME_BYTES: usize = 63;

pub const CHAIN_STRUCTS: usize = 16;

pub const TABLE_ROWS: usize = 1024;

pub const ROW_WORDS: usize = 8;

pub const RECORD_WORDS: usize = 4;
