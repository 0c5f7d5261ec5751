// What a name refers to, by the index of definitions.
ghost use Rattle.std.specs.Prelude.{◌≡◌, ◌<◌, ◌^◌, length};
ghost use Rattle.rules.specs.Serving.Cells.{is_named};
ghost use Rattle.references.specs.Lookups.{fitting, name_in, Finds, Refers};

use buckets::{BUCKETS, first, next};
use builtins::FIRST_REFERENCE;
use builtins::names::built_in;
use rows::hashes::hash_of;
use rows::names::{name_of, same_bytes};
use rows::rows::word;
use rules::{SCHEMA_BYTES, kind, row};
use strings::bytes::part_of;

// A schema's bytes, and the index of its definitions by their names.
#[derive(Clone, Copy)]
pub struct DefinitionNames<'a> {
    pub schema: &'a [u8],
    pub heads: &'a [u32; BUCKETS],
    pub links: &'a [u32],
}

// Whether a row of that kind may be meant: a struct alone, or any type.
fn fits(kind: u32, structs: bool) -> bool
    ensures { result ≡ fitting structs kind }
{
    match kind {
        kind::ENUM => !structs,
        kind::STRUCT => true,
        kind::UNION => !structs,
        kind::ALTERNATE => !structs,
        _ => false,
    }
}

// Whether row r may be meant and has the name.
fn is_named(s: &[u8], rows: &[u32], r: usize, name: &[u8], structs: bool) -> bool
    ensures { result ≡ is_named s.now rows.now (fitting structs) name.now r }
{
    fits(word(rows, r, row::KIND), structs) && same_bytes(name, name_of(s, rows, r))
}

// The first definition in the index that may be meant and has the name.
fn find(names: &DefinitionNames, rows: &[u32], name: &[u8], structs: bool) -> Option<usize>
    requires { length rows.now < 2 ^ 32 }
    ensures { Finds names.now.schema.now rows.now names.now.heads.now names.now.links.now structs name.now result }
{
    let mut link = first(names.heads, hash_of(name));
    // The count that falls is the measure of a walk along links; a `for` would count beside the walk, and is no plainer.
    let mut left = names.links.len();
    while 0 < left {
        if link == 0 {
            return None;
        }
        let r = link - 1;
        if is_named(names.schema, rows, r, name, structs) {
            return Some(r);
        }
        link = next(names.links, r);
        left -= 1;
    }
    None
}

// A word names a name by its start, this many times, and its size.
const STARTS: u32 = SCHEMA_BYTES as u32;

// The name that a word names.
pub fn named_by(s: &[u8], w: u32) -> &[u8]
    ensures { result.now ≡ name_in s.now w }
{
    part_of(s, (w / STARTS) as usize, (w % STARTS) as usize)
}

// What a word names: a struct's link, or a type reference; nothing for 0.
pub fn referred(names: &DefinitionNames, rows: &[u32], structs: bool, w: u32) -> Option<u32>
    requires { length rows.now < 2 ^ 32 }
    ensures { Refers names.now.schema.now rows.now names.now.heads.now names.now.links.now structs w result }
{
    if w == 0 {
        return None;
    }
    let name = named_by(names.schema, w);
    if structs {
        let r = find(names, rows, name, true)?;
        return Some(r as u32 + 1);
    }
    if let Some(b) = built_in(name) {
        return Some(b);
    }
    let r = find(names, rows, name, false)?;
    Some(r as u32 + FIRST_REFERENCE)
}
