// Names: parts of the schema's bytes that rows point to.
ghost use Rattle.std.specs.Prelude.{◌≡◌, take, drop, ◌&&◌, ◌||◌};
ghost use Rattle.grammar.specs.Notation.{text, same, all, digit};
ghost use Rattle.rules.specs.Names.{letter, name_byte, good_name, c_byte, clash};
ghost use Rattle.rules.specs.Rows.{name_of};
ghost use Rattle.rows.specs.Hashes.{back};

use crate::rows::word;
use rules::{NAME_BYTES, row};
use sorted::orders::c_byte;
use strings::bytes::{part_of, same_parts};
use strings::classes::Classes;

// The byte k bytes before the end of a name, or the first of a shorter one; 0 of an empty name.
pub fn byte_back(name: &[u8], k: usize) -> u8
    ensures { result ≡ back name.now k }
{
    let n = name.len();
    if n == 0 {
        return 0;
    }
    if k == 0 {
        return 0;
    }
    if n < k {
        return name[0];
    }
    name[n - k]
}

// Whether two slices are equal: their lengths, their last bytes, then the rest.
pub fn same_bytes(x: &[u8], y: &[u8]) -> bool
    ensures { result ≡ same x.now y.now }
{
    let n = x.len();
    if n != y.len() {
        return false;
    }
    same_parts(x, 0, y, 0, n)
}

// Whether two names clash: one name in C.
pub fn names_clash(x: &[u8], y: &[u8]) -> bool
    ensures { result ≡ clash x.now y.now }
{
    if x.len() != y.len() {
        return false;
    }
    for i in 0..x.len() {
        if c_byte(x[i]) != c_byte(y[i]) {
            return false;
        }
    }
    true
}

// The name of row r.
pub fn name_of<'a>(schema: &'a [u8], rows: &[u32], r: usize) -> &'a [u8]
    ensures { result.now ≡ name_of schema.now rows.now r }
{
    let start = word(rows, r, row::START) as usize;
    part_of(schema, start, word(rows, r, row::SIZE) as usize)
}

fn is_letter(b: u8) -> bool
    ensures { result ≡ letter b }
{
    b.is_ascii_alphabetic()
}

fn is_name_byte(classes: &Classes, b: u8) -> bool
    ensures { result ≡ name_byte b }
{
    classes.class_of(b).is_named()
}

// Whether every byte is one of a name.
fn name_bytes(bytes: &[u8], classes: &Classes) -> bool
    ensures { result ≡ all name_byte bytes.now }
{
    for b in bytes {
        if !is_name_byte(classes, *b) {
            return false;
        }
    }
    true
}

// Whether a name may begin with that byte: with a digit where `digits` says so.
fn good_start(b: u8, digits: bool) -> bool
    ensures { result ≡ (letter b || digits && digit b) }
{
    is_letter(b) || digits && b.is_ascii_digit()
}

// Whether a name begins with q_.
fn is_reserved(name: &[u8]) -> bool
    ensures { result ≡ same (take 2 name.now) (text "q_") }
{
    name.starts_with(b"q_")
}

// Whether a name is good: a digit may be its first byte where `digits` says so.
pub fn good_name(name: &[u8], classes: &Classes, digits: bool) -> bool
    ensures { result ≡ good_name digits name.now }
{
    let n = name.len();
    if n == 0 {
        return false;
    }
    if NAME_BYTES < n {
        return false;
    }
    if !good_start(name[0], digits) {
        return false;
    }
    if is_reserved(name) {
        return false;
    }
    name_bytes(&name[1..], classes)
}
