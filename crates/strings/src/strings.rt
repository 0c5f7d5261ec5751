// Strings of both dialects.
ghost use Rattle.std.specs.Prelude.{◌≡◌, ◌<◌, length};
ghost use Rattle.strings.specs.Strings.{grammar_of, PlainEnd, ReadsString};
ghost use Rattle.grammar.specs.Serving.Machine.Schema.{schema as schema_dialect};
ghost use Rattle.grammar.specs.Serving.Machine.Message.{message};

use crate::chars::{Fault, message_char, schema_char};
use crate::classes::Classes;
use crate::dialects::Dialect;
use crate::sources::Source;

// Whether a string's bytes are its code points.
#[derive(Clone, Copy, PartialEq, Eq)]
pub enum Spelling {
    Plain,
    Coded,
}

// How a string is spelled, and the place past its closing quote.
#[derive(Clone, Copy, PartialEq, Eq)]
pub struct StringEnd {
    pub spelling: Spelling,
    pub end: usize,
}

// The first place from `from` on whose byte is not plain.
fn plain_end(s: &[u8], classes: &Classes, from: usize) -> usize
    ensures { PlainEnd s.now from result }
{
    for i in from..s.len() {
        if !classes.class_of(s[i]).is_plain() {
            return i;
        }
    }
    from.max(s.len())
}

// By runs of plain bytes, which end at the quotation mark.
fn message_string(s: &[u8], classes: &Classes, quote: usize) -> Result<StringEnd, Fault>
    requires { quote < length s.now }
    ensures { ReadsString message s.now quote result }
{
    let mut i = plain_end(s, classes, quote + 1);
    if i < s.len() && s[i] == b'"' {
        return Ok(StringEnd {
            spelling: Spelling::Plain,
            end: i + 1,
        });
    }
    while i < s.len() {
        if s[i] == b'"' {
            return Ok(StringEnd {
                spelling: Spelling::Coded,
                end: i + 1,
            });
        }
        let c = message_char(s, i)?;
        i = plain_end(s, classes, c.end);
    }
    Err(Fault { at: i })
}

// By characters and no runs of a class: the apostrophe that ends a schema string has the class of plain bytes.
fn schema_string(s: &[u8], quote: usize) -> Result<StringEnd, Fault>
    requires { quote < length s.now }
    ensures { ReadsString schema_dialect s.now quote result }
{
    let mut i = quote + 1;
    let mut spelling = Spelling::Plain;
    while i < s.len() {
        if s[i] == b'\'' {
            return Ok(StringEnd {
                spelling,
                end: i + 1,
            });
        }
        let c = schema_char(s, i)?;
        if c.code == 0x5C {
            spelling = Spelling::Coded;
        }
        i = c.end;
    }
    Err(Fault { at: i })
}

// The string whose opening quote stands at `quote`. Each of its two callers takes it in: a call for each short string costs as much as reading it.
#[inline(always)]
pub fn read_string(source: Source, quote: usize) -> Result<StringEnd, Fault>
    requires { quote < length source.bytes.now }
    ensures { ReadsString (grammar_of source.entry.dialect) source.entry.bytes.now quote result }
{
    match source.dialect {
        Dialect::Schema => schema_string(source.bytes, quote),
        Dialect::Message => message_string(source.bytes, source.classes, quote),
    }
}
