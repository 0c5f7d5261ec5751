// Words and numbers.
ghost use Rattle.std.specs.Prelude.{◌≡◌, ◌<◌, ◌≤◌, length};
ghost use Rattle.grammar.specs.MessageText.{letter_e, sign};
ghost use Rattle.tokens.specs.TokenParts.{ReadsWord};
ghost use Rattle.tokens.specs.Numbers.{DigitsRun, BeforePower, BeforePoint, BeforeInt};
ghost use Rattle.tokens.specs.Numbers.{ReadsDigits, ReadsInt, ReadsPower, ReadsRest, ReadsNumber};

use strings::chars::Fault;
use strings::sources::Source;

// Whether a number is an integer, and the place past it.
#[derive(Clone, Copy, PartialEq, Eq)]
pub struct Number {
    pub integer: bool,
    pub end: usize,
}

// The first place from `from` on that holds no digit.
fn digits_end(source: Source, from: usize) -> usize
    ensures { DigitsRun source.entry.bytes.now from result }
{
    for i in from..source.bytes.len() {
        if !source.classes.is_digit(source.bytes[i]) {
            return i;
        }
    }
    from.max(source.bytes.len())
}

// One digit or more at `from`.
fn some_digits(source: Source, from: usize) -> Result<usize, Fault>
    ensures { ReadsDigits source.entry.bytes.now from result }
{
    let s = source.bytes;
    if s.len() <= from || !source.classes.is_digit(s[from]) {
        return Err(Fault { at: from });
    }
    Ok(digits_end(source, from + 1))
}

// The integer part at `from`: a zero alone, or digits that begin with another.
fn int_end(source: Source, from: usize) -> Result<usize, Fault>
    ensures { ReadsInt source.entry.bytes.now from result }
{
    let s = source.bytes;
    if from < s.len() && s[from] == b'0' {
        return Ok(from + 1);
    }
    some_digits(source, from)
}

fn is_sign(b: u8) -> bool
    ensures { result ≡ sign b }
{
    b == b'-' || b == b'+'
}

// The exponent at `from`, past its e.
fn exponent_end(source: Source, from: usize) -> Result<usize, Fault>
    ensures { ReadsPower source.entry.bytes.now from result }
{
    let s = source.bytes;
    if from < s.len() && is_sign(s[from]) {
        return some_digits(source, from + 1);
    }
    some_digits(source, from)
}

fn opens_exponent(b: u8) -> bool
    ensures { result ≡ letter_e b }
{
    b == b'e' || b == b'E'
}

// What may follow the integer part or the fraction at `from`: an exponent.
fn exponent(source: Source, from: usize, integer: bool) -> Result<Number, Fault>
    ensures { ReadsRest source.entry.bytes.now from (BeforePower source.entry.bytes.now from integer) result }
{
    let s = source.bytes;
    if from < s.len() && opens_exponent(s[from]) {
        let end = exponent_end(source, from + 1)?;
        return Ok(Number {
            integer: false,
            end,
        });
    }
    Ok(Number { integer, end: from })
}

// What may follow the integer part at `from`: a fraction, an exponent.
fn fraction(source: Source, from: usize) -> Result<Number, Fault>
    ensures { ReadsRest source.entry.bytes.now from (BeforePoint source.entry.bytes.now from) result }
{
    let s = source.bytes;
    if from < s.len() && s[from] == b'.' {
        let end = some_digits(source, from + 1)?;
        return exponent(source, end, false);
    }
    exponent(source, from, true)
}

// The number at `from`, past its sign.
fn unsigned(source: Source, from: usize) -> Result<Number, Fault>
    ensures { ReadsRest source.entry.bytes.now from (BeforeInt source.entry.bytes.now from) result }
{
    let end = int_end(source, from)?;
    fraction(source, end)
}

// The number that begins at `from` with a minus or a digit.
pub fn read_number(source: Source, from: usize) -> Result<Number, Fault>
    requires { from < length source.bytes.now }
    ensures { ReadsNumber source.entry.bytes.now from result }
{
    if source.bytes[from] == b'-' {
        return unsigned(source, from + 1);
    }
    unsigned(source, from)
}

// The rest w of a word at `from`, and the place past it.
pub fn read_word(s: &[u8], from: usize, w: &[u8]) -> Result<usize, Fault>
    requires { from ≤ length s.now }
    ensures { ReadsWord s.now from w.now result }
{
    for i in 0..w.len() {
        let at = from + i;
        if s.len() <= at || s[at] != w[i] {
            return Err(Fault { at });
        }
    }
    Ok(from + w.len())
}
