// What stands between the values of an object or an array: keys with their colon, commas and closing brackets.
ghost use Rattle.std.specs.Prelude.{◌≡◌};
ghost use Rattle.strings.specs.Strings.{grammar_of, is_plain};
ghost use Rattle.tokens.specs.Tokens.{ReadsKey, Follows, key_kind};
ghost use Rattle.tokens.specs.TokenParts.{ReadsColon};

use crate::blanks::skip_blanks;
use crate::node;
use crate::scalars::opens_string;
use strings::chars::Fault;
use strings::sources::Source;
use strings::strings::{Spelling, read_string};

// A key: its start, its end, its node's kind, and the place past the colon.
#[derive(Clone, Copy, PartialEq, Eq)]
pub struct Key {
    pub start: usize,
    pub end: usize,
    pub kind: u32,
    pub past: usize,
}

// The place past a comma, or past the closing bracket.
#[derive(Clone, Copy, PartialEq, Eq)]
pub enum Following {
    Comma(usize),
    Close(usize),
}

// What stands after a value that ends at `i`, in a container that `close` closes.
pub fn read_following(source: Source, i: usize, close: u8) -> Result<Following, Fault>
    ensures { Follows (grammar_of source.entry.dialect) source.entry.bytes.now i close result }
{
    let s = source.bytes;
    let e = skip_blanks(source, i);
    if e < s.len() {
        if s[e] == b',' {
            return Ok(Following::Comma(e + 1));
        }
        if s[e] == close {
            return Ok(Following::Close(e + 1));
        }
    }
    Err(Fault { at: e })
}

// The place past the colon that stands after blanks at `from`, where a key ends.
fn colon(source: Source, from: usize) -> Result<usize, Fault>
    ensures { ReadsColon (grammar_of source.entry.dialect) source.entry.bytes.now from result }
{
    let s = source.bytes;
    let c = skip_blanks(source, from);
    if s.len() <= c || s[c] != b':' {
        return Err(Fault { at: c });
    }
    Ok(c + 1)
}

// The kind of the node of a key that is spelled so.
fn key_kind(spelling: Spelling) -> u32
    ensures { result ≡ key_kind (is_plain spelling) }
{
    match spelling {
        Spelling::Plain => node::PLAIN_KEY,
        Spelling::Coded => node::OTHER_KEY,
    }
}

// The key that stands after blanks at `i`, with its colon.
pub fn read_key(source: Source, i: usize) -> Result<Key, Fault>
    ensures { ReadsKey (grammar_of source.entry.dialect) source.entry.bytes.now i result }
{
    let s = source.bytes;
    let start = skip_blanks(source, i);
    if s.len() <= start || !opens_string(s[start], source.dialect) {
        return Err(Fault { at: start });
    }
    let string = read_string(source, start)?;
    let past = colon(source, string.end)?;
    Ok(Key {
        start,
        end: string.end,
        kind: key_kind(string.spelling),
        past,
    })
}
