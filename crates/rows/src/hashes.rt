// Hashes: a number for each row that rows whose names clash share, so that few names are compared byte by byte.
ghost use Rattle.std.specs.Prelude.{◌≡◌};
ghost use Rattle.grammar.specs.Notation.{apart};
ghost use Rattle.rules.specs.Names.{same_name, c_byte, clash};
ghost use Rattle.rules.specs.Rows.{name_of};
ghost use Rattle.rules.specs.Rules.{names_of, no_clash};
ghost use Rattle.rows.specs.Hashes.{back, hash_of, Hashes, Other, fresh_in};

use crate::names::{byte_back, name_of, names_clash, same_bytes};
use crate::walk::Walk;
use sorted::orders::c_byte;

// The byte k bytes before the end of a name, or the first, as it is in C; 0 of an empty name.
fn c_byte_back(name: &[u8], k: usize) -> u8
    ensures { result ≡ c_byte (back name.now k) }
{
    c_byte(byte_back(name, k))
}

// A number that names share if they clash: of the length and the first byte, and of the last three bytes.
pub fn hash_of(name: &[u8]) -> u32
    ensures { result ≡ hash_of name.now }
{
    let n = name.len();
    let front = ((n + c_byte_back(name, n) as usize) % 256) as u32;
    let a = c_byte_back(name, 1) as u32;
    let b = c_byte_back(name, 2) as u32;
    let c = c_byte_back(name, 3) as u32;
    front + 37 * (a + 37 * (b + 37 * c))
}

// A name that is looked for, with its hash.
#[derive(Clone, Copy)]
pub struct Sought<'a> {
    pub name: &'a [u8],
    pub hash: u32,
    ghost hashed: { hash ≡ hash_of name.now },
}

impl<'a> Sought<'a> {
    pub fn of(name: &'a [u8]) -> Sought<'a>
        ensures { result.name.now ≡ name.now }
    {
        Sought {
            name,
            hash: hash_of(name),
        }
    }
}

// Writes the hashes of the first rows, as many as there is room for.
pub fn put_hashes(schema: &[u8], rows: &[u32], hashes: &mut [u32])
    ensures { Hashes schema.now rows.now hashes.new }
{
    for r in 0..hashes.len() {
        hashes[r] = hash_of(name_of(schema, rows, r));
    }
}

// Rows over a schema, with the hashes of the first rows' names.
#[derive(Clone, Copy)]
pub struct HashedRows<'a> {
    pub schema: &'a [u8],
    pub rows: &'a [u32],
    pub hashes: &'a [u32],
    ghost hashed: { Hashes schema.now rows.now hashes.now },
}

impl<'a> HashedRows<'a> {
    // Whether row r has a hash that is told and another than the one given.
    fn is_other(self, r: usize, hash: u32) -> bool
        ensures { Other self.entry.hashes.now r hash result }
    {
        self.hashes.get(r).is_some_and(|known| *known != hash)
    }

    // Whether row r has a name.
    pub fn is_named(self, r: usize, name: Sought<'_>) -> bool
        ensures { result ≡ same_name name.entry.name.now (name_of self.entry.schema.now self.entry.rows.now r) }
    {
        if self.is_other(r, name.hash) {
            return false;
        }
        same_bytes(name.name, name_of(self.schema, self.rows, r))
    }

    // Whether a name clashes with that of row r.
    pub fn clashes(self, r: usize, name: Sought<'_>) -> bool
        ensures { result ≡ clash name.entry.name.now (name_of self.entry.schema.now self.entry.rows.now r) }
    {
        if self.is_other(r, name.hash) {
            return false;
        }
        names_clash(name.name, name_of(self.schema, self.rows, r))
    }

    // Whether the name of row r clashes with that of none among others.
    pub fn is_fresh(self, r: usize, mut among: Walk<'_>) -> bool
        ensures { result ≡ fresh_in self.entry.schema.now self.entry.rows.now (name_of self.entry.schema.now self.entry.rows.now r) among.entry }
    {
        let name = Sought::of(name_of(self.schema, self.rows, r));
        among.all(|other| !self.clashes(other, name))
    }

    // Whether no two names clash: each is compared with those after it.
    pub fn pairs_apart(self, rows: Walk<'_>) -> bool
        ensures { result ≡ apart clash (names_of self.entry.schema.now self.entry.rows.now rows.entry) }
    {
        let mut left = rows;
        while let Some(r) = left.next() {
            if !self.is_fresh(r, left.rest()) {
                return false;
            }
        }
        true
    }

    // Whether no name of the one rows clashes with one of the others.
    pub fn runs_apart(self, mut rows: Walk<'_>, others: Walk<'_>) -> bool
        ensures { result ≡ no_clash (names_of self.entry.schema.now self.entry.rows.now rows.entry) (names_of self.entry.schema.now self.entry.rows.now others.entry) }
    {
        rows.all(|r| self.is_fresh(r, others.rest()))
    }
}
