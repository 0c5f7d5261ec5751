// Strings in either dialect: classes of bytes, characters, whole strings, and what they mean.
#![tactic(auto)]

pub mod bytes;
pub mod chars;
pub mod class;
pub mod classes;
pub mod decoded;
pub mod dialects;
pub mod hashes;
pub mod meanings;
pub mod sources;
pub mod strings;
