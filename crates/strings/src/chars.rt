// The characters of strings, of both dialects: a byte that stands for itself, an escape, or UTF-8. Any place may be asked.
ghost use Rattle.std.specs.Prelude.{◌≡◌, ◌≤◌, ◌<◌, length};
ghost use Rattle.grammar.specs.Serving.Machine.Schema.{schema as schema_dialect};
ghost use Rattle.grammar.specs.Serving.Machine.Message.{message, char_start};
ghost use Rattle.grammar.specs.Serving.Machine.Message.{CharState as State};
ghost use Rattle.strings.specs.Chars.{rest_at, next_at, char_at, HexAt, TwoDigits, TailByte, utf8_at};
ghost use Rattle.strings.specs.Strings.{grammar_of};

use crate::dialects::Dialect;

// A code point and the place past it.
#[derive(Clone, Copy, PartialEq, Eq)]
pub struct Char {
    pub code: u32,
    pub end: usize,
}

// The place of the first byte that nothing could have there.
#[derive(Clone, Copy, PartialEq, Eq)]
pub struct Fault {
    pub at: usize,
}

// What the hexadecimal digit at `i` stands for.
fn hex_at(s: &[u8], i: usize) -> Result<u32, Fault>
    ensures { HexAt s.now i result }
{
    if s.len() <= i {
        return Err(Fault { at: i });
    }
    let b = s[i];
    match b {
        b'0'..=b'9' => Ok(b as u32 - 48),
        b'A'..=b'F' => Ok(b as u32 - 55),
        b'a'..=b'f' => Ok(b as u32 - 87),
        _ => Err(Fault { at: i }),
    }
}

// Two digits at `i`, after those that make v.
fn two_digits(s: &[u8], i: usize, v: u32) -> Result<Char, Fault>
    requires { v < 0x1000 }
    ensures { TwoDigits s.now i v result }
{
    let a = hex_at(s, i)?;
    let b = hex_at(s, i + 1)?;
    Ok(Char {
        code: (v * 16 + a) * 16 + b,
        end: i + 2,
    })
}

// The digits at `i` of the low surrogate that the high one h wants: D, then one from C on, then two.
fn low_digits(s: &[u8], i: usize, h: u32) -> Result<Char, Fault>
    requires { (0xD800 ≤ h) × (h ≤ 0xDBFF) }
    ensures { result ≡ rest_at message (State.low0 h) s.now i }
{
    let a = hex_at(s, i)?;
    if a != 13 {
        return Err(Fault { at: i });
    }
    let b = hex_at(s, i + 1)?;
    if b < 12 {
        return Err(Fault { at: i + 1 });
    }
    let low = two_digits(s, i + 2, 208 + b)?;
    Ok(Char {
        code: 0x10000 + (h - 0xD800) * 0x400 + (low.code - 0xDC00),
        end: low.end,
    })
}

// The low surrogate at `i` that the high one h wants, as an escape.
fn low_surrogate(s: &[u8], i: usize, h: u32) -> Result<Char, Fault>
    requires { (0xD800 ≤ h) × (h ≤ 0xDBFF) }
    ensures { result ≡ rest_at message (State.low_backslash h) s.now i }
{
    if s.len() <= i || s[i] != b'\\' {
        return Err(Fault { at: i });
    }
    if s.len() <= i + 1 || s[i + 1] != b'u' {
        return Err(Fault { at: i + 1 });
    }
    low_digits(s, i + 2, h)
}

// The digits of `\u` at `i`, and a second escape after a high surrogate. A low one, which no character begins with, is refused at its second digit.
fn hex_escape(s: &[u8], i: usize) -> Result<Char, Fault>
    ensures { result ≡ rest_at message State.hex0 s.now i }
{
    let first = two_digits(s, i, 0)?;
    if 0xDC <= first.code && first.code <= 0xDF {
        return Err(Fault { at: i + 1 });
    }
    let unit = two_digits(s, first.end, first.code)?;
    if 0xD800 <= unit.code && unit.code <= 0xDBFF {
        return low_surrogate(s, unit.end, unit.code);
    }
    Ok(unit)
}

// What follows a backslash, at `i`.
fn escape(s: &[u8], i: usize) -> Result<Char, Fault>
    ensures { result ≡ rest_at message State.escape s.now i }
{
    if s.len() <= i {
        return Err(Fault { at: i });
    }
    let b = s[i];
    match b {
        b'u' => hex_escape(s, i + 1),
        b'"' => Ok(Char {
            code: 0x22,
            end: i + 1,
        }),
        b'\\' => Ok(Char {
            code: 0x5C,
            end: i + 1,
        }),
        b'/' => Ok(Char {
            code: 0x2F,
            end: i + 1,
        }),
        b'b' => Ok(Char {
            code: 0x08,
            end: i + 1,
        }),
        b'f' => Ok(Char {
            code: 0x0C,
            end: i + 1,
        }),
        b'n' => Ok(Char {
            code: 0x0A,
            end: i + 1,
        }),
        b'r' => Ok(Char {
            code: 0x0D,
            end: i + 1,
        }),
        b't' => Ok(Char {
            code: 0x09,
            end: i + 1,
        }),
        _ => Err(Fault { at: i }),
    }
}

// The last byte of UTF-8, at `i`, from low to high, after bytes that make v.
fn last_byte(s: &[u8], i: usize, v: u32, low: u8, high: u8) -> Result<Char, Fault>
    requires { (v < 0x100000) × (0x80 ≤ low) }
    ensures { TailByte low high v s.now i result }
{
    if s.len() <= i {
        return Err(Fault { at: i });
    }
    let b = s[i];
    if b < low || high < b {
        return Err(Fault { at: i });
    }
    Ok(Char {
        code: v * 64 + (b as u32 - 128),
        end: i + 1,
    })
}

fn two_bytes(s: &[u8], i: usize, v: u32, low: u8, high: u8) -> Result<Char, Fault>
    requires { (v < 0x1000) × (0x80 ≤ low) }
    ensures { result ≡ utf8_at 2 low high v s.now i }
{
    let first = last_byte(s, i, v, low, high)?;
    last_byte(s, first.end, first.code, 0x80, 0xBF)
}

fn three_bytes(s: &[u8], i: usize, v: u32, low: u8, high: u8) -> Result<Char, Fault>
    requires { (v < 0x10) × (0x80 ≤ low) }
    ensures { result ≡ utf8_at 3 low high v s.now i }
{
    let first = last_byte(s, i, v, low, high)?;
    two_bytes(s, first.end, first.code, 0x80, 0xBF)
}

// UTF-8 whose lead byte b stands at `i`.
fn utf8(s: &[u8], i: usize, b: u8) -> Result<Char, Fault>
    requires { (i < length s.now) × (0x80 ≤ b) }
    ensures { result ≡ next_at message (char_start b) s.now i }
{
    match b {
        0xC2..=0xDF => last_byte(s, i + 1, b as u32 - 0xC0, 0x80, 0xBF),
        0xE0 => two_bytes(s, i + 1, 0, 0xA0, 0xBF),
        0xED => two_bytes(s, i + 1, 13, 0x80, 0x9F),
        0xE1..=0xEF => two_bytes(s, i + 1, b as u32 - 0xE0, 0x80, 0xBF),
        0xF0 => three_bytes(s, i + 1, 0, 0x90, 0xBF),
        0xF1..=0xF3 => three_bytes(s, i + 1, b as u32 - 0xF0, 0x80, 0xBF),
        0xF4 => three_bytes(s, i + 1, 4, 0x80, 0x8F),
        _ => Err(Fault { at: i }),
    }
}

// The character at `i` of a message string.
pub fn message_char(s: &[u8], i: usize) -> Result<Char, Fault>
    ensures { result ≡ char_at message s.now i }
{
    if s.len() <= i {
        return Err(Fault { at: i });
    }
    let b = s[i];
    if b == b'\\' {
        return escape(s, i + 1);
    }
    if b == b'"' || b < 0x20 {
        return Err(Fault { at: i });
    }
    if b < 0x80 {
        return Ok(Char {
            code: b as u32,
            end: i + 1,
        });
    }
    utf8(s, i, b)
}

// The character at `i` of a schema string: two backslashes mean one.
pub fn schema_char(s: &[u8], i: usize) -> Result<Char, Fault>
    ensures { result ≡ char_at schema_dialect s.now i }
{
    if s.len() <= i {
        return Err(Fault { at: i });
    }
    let b = s[i];
    if b == b'\'' || b < 0x20 || 0x7E < b {
        return Err(Fault { at: i });
    }
    if b != b'\\' {
        return Ok(Char {
            code: b as u32,
            end: i + 1,
        });
    }
    if s.len() <= i + 1 || s[i + 1] != b'\\' {
        return Err(Fault { at: i + 1 });
    }
    Ok(Char {
        code: 0x5C,
        end: i + 2,
    })
}

// The character at `i` of a string of either dialect: the two have other bytes that stand for themselves, and other escapes.
pub fn next_char(s: &[u8], dialect: Dialect, i: usize) -> Result<Char, Fault>
    ensures { result ≡ char_at (grammar_of dialect) s.now i }
{
    match dialect {
        Dialect::Schema => schema_char(s, i),
        Dialect::Message => message_char(s, i),
    }
}
