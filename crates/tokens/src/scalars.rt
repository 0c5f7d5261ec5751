// Values without brackets: strings, numbers, words.
ghost use Rattle.std.specs.Prelude.{◌≡◌, ◌≤◌, ◌<◌, false, length, get_or};
ghost use Rattle.grammar.specs.Serving.Machine.Message.{message};
ghost use Rattle.strings.specs.Strings.{grammar_of, is_plain};
ghost use Rattle.tokens.specs.Tokens.{Unbracketed, ReadsScalar, string_node, number_node};
ghost use Rattle.tokens.specs.TokenParts.{ReadsBool, ReadsKind, begins_number};

use crate::literals::{read_number, read_word};
use crate::node;
use strings::chars::Fault;
use strings::classes::Classes;
use strings::dialects::Dialect;
use strings::sources::Source;
use strings::strings::{Spelling, read_string};

// The kind of a value's node, and the place past the value.
#[derive(Clone, Copy, PartialEq, Eq)]
pub struct Scalar {
    pub kind: u32,
    pub end: usize,
}

// Whether the byte opens a string.
pub fn opens_string(b: u8, dialect: Dialect) -> bool
    ensures { result ≡ (grammar_of dialect).lexis.quote b }
{
    match dialect {
        Dialect::Schema => b == b'\'',
        Dialect::Message => b == b'"',
    }
}

// The kind of the node of a string that is spelled so.
fn string_node(spelling: Spelling) -> u32
    ensures { result ≡ string_node (is_plain spelling) }
{
    match spelling {
        Spelling::Plain => node::PLAIN_STRING,
        Spelling::Coded => node::OTHER_STRING,
    }
}

// The kind of the node of a number.
fn number_node(integer: bool) -> u32
    ensures { result ≡ number_node integer }
{
    if integer {
        node::INTEGER
    } else {
        node::OTHER_NUMBER
    }
}

// The rest w of a word at `from`, as a node of that kind.
fn read_kind(s: &[u8], from: usize, w: &[u8], kind: u32) -> Result<Scalar, Fault>
    requires { from ≤ length s.now }
    ensures { ReadsKind s.now from w.now kind result }
{
    let end = read_word(s, from, w)?;
    Ok(Scalar { kind, end })
}

// The words that both dialects have, true and false; no value where neither begins.
fn read_bool(s: &[u8], i: usize) -> Result<Scalar, Fault>
    requires { i < length s.now }
    ensures { ReadsBool s.now i result }
{
    match s[i] {
        b't' => read_kind(s, i + 1, b"rue", node::TRUE),
        b'f' => read_kind(s, i + 1, b"alse", node::FALSE),
        _ => Err(Fault { at: i }),
    }
}

fn begins_number(classes: &Classes, b: u8) -> bool
    ensures { result ≡ begins_number b }
{
    b == b'-' || classes.is_digit(b)
}

// The value at `i` of a message, where no quote stands.
fn read_unquoted(source: Source, i: usize) -> Result<Scalar, Fault>
    requires { (i < length source.bytes.now) × Unbracketed message source.bytes.now i × (message.lexis.quote (get_or source.bytes.now i 0) ≡ false) }
    ensures { ReadsScalar message source.entry.bytes.now i result }
{
    let b = source.bytes[i];
    if begins_number(source.classes, b) {
        let number = read_number(source, i)?;
        return Ok(Scalar {
            kind: number_node(number.integer),
            end: number.end,
        });
    }
    if b == b'n' {
        return read_kind(source.bytes, i + 1, b"ull", node::NULL);
    }
    read_bool(source.bytes, i)
}

// The value without brackets at `i`, where no blank, comment or opening bracket stands.
pub fn read_scalar(source: Source, i: usize) -> Result<Scalar, Fault>
    requires { Unbracketed (grammar_of source.dialect) source.bytes.now i }
    ensures { ReadsScalar (grammar_of source.entry.dialect) source.entry.bytes.now i result }
{
    let s = source.bytes;
    if s.len() <= i {
        return Err(Fault { at: i });
    }
    if opens_string(s[i], source.dialect) {
        let string = read_string(source, i)?;
        return Ok(Scalar {
            kind: string_node(string.spelling),
            end: string.end,
        });
    }
    match source.dialect {
        Dialect::Schema => read_bool(s, i),
        Dialect::Message => read_unquoted(source, i),
    }
}
