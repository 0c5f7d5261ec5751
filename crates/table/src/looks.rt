// What strings look like once their quotes are lost: a number, or a bool. Each enum is looked through once: what was found then stands in lent words.
ghost use Rattle.std.specs.Prelude.{◌≡◌, cond};
ghost use Rattle.rules.specs.Rules.{starts_with_digit, on_or_off};
ghost use Rattle.rows.specs.Rows.{Near};
ghost use Rattle.table.specs.Looks.{looks_like, enum_looks, type_looks, looks_of, tells, Looked, Looking};

use builtins::{FIRST_ROW, STR};
use rows::names::{name_of, same_bytes};
use rows::rows::word;
use rows::walk::children;
use rules::{kind, row};

// What a string may look like.
#[derive(Clone, Copy)]
pub enum Like {
    Number,
    Boolean,
}

// Whether a name starts with a digit.
fn starts_with_digit(name: &[u8]) -> bool
    ensures { result ≡ starts_with_digit name.now }
{
    matches!(name, [b'0'..=b'9', ..])
}

// Whether a name is on or off.
fn is_on_or_off(name: &[u8]) -> bool
    ensures { result ≡ on_or_off name.now }
{
    same_bytes(name, b"on") || same_bytes(name, b"off")
}

// Whether a value of that name looks so.
fn looks(name: &[u8], like: Like) -> bool
    ensures { result ≡ looks_like like name.now }
{
    match like {
        Like::Number => starts_with_digit(name),
        Like::Boolean => is_on_or_off(name),
    }
}

// Whether some value of enum e looks so.
fn has_value(schema: &[u8], rows: &[u32], e: usize, like: Like) -> bool
    requires { Near e }
    ensures { result ≡ enum_looks schema.now rows.now like e }
{
    children(rows, e).any(|value| looks(name_of(schema, rows, value), like))
}

// From here on a word tells what the values of an enum look like, by what is added; hashes of names are below.
const LOOKED: u32 = 0x8000_0000;

const LIKE_NUMBER: u32 = 1;

const LIKE_BOOLEAN: u32 = 2;

// What a finding adds to the word.
fn mark(found: bool, added: u32) -> u32
    ensures { result ≡ cond found added 0 }
{
    if found {
        return added;
    }
    0
}

// Looks through the values of enum e.
fn look_through(schema: &[u8], rows: &[u32], e: usize) -> u32
    requires { Near e }
    ensures { result ≡ looks_of schema.now rows.now e }
{
    let number = mark(has_value(schema, rows, e, Like::Number), LIKE_NUMBER);
    let boolean = mark(has_value(schema, rows, e, Like::Boolean), LIKE_BOOLEAN);
    LOOKED + number + boolean
}

// What the values of enum e look like, as the words tell; they do so from now on.
fn looks_of(schema: &[u8], rows: &[u32], words: &mut [u32], e: usize) -> u32
    requires { Near e × Looked schema.now rows.now words.old }
    ensures { Looking schema.now rows.now words.new (looks_of schema.now rows.now e) result }
{
    if words.len() <= e {
        return look_through(schema, rows, e);
    }
    let known = words[e];
    if LOOKED <= known {
        return known;
    }
    let found = look_through(schema, rows, e);
    words[e] = found;
    found
}

// Whether a word tells that an enum has a value that looks so.
fn is_told(word: u32, like: Like) -> bool
    ensures { result ≡ tells like word }
{
    match like {
        Like::Number => word % LIKE_BOOLEAN == LIKE_NUMBER,
        Like::Boolean => LOOKED + LIKE_BOOLEAN <= word,
    }
}

// Whether type t has a string that looks so: str has any, an enum its values.
pub fn type_looks(schema: &[u8], rows: &[u32], words: &mut [u32], t: usize, like: Like) -> bool
    requires { Near t × Looked schema.now rows.now words.old }
    ensures { Looking schema.now rows.now words.new (type_looks schema.now rows.now like t) result }
{
    if t == STR {
        return true;
    }
    if t < FIRST_ROW {
        return false;
    }
    let e = t - FIRST_ROW;
    if word(rows, e, row::KIND) != kind::ENUM {
        return false;
    }
    is_told(looks_of(schema, rows, words, e), like)
}
