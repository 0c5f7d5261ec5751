// An index of long lists of children by their row and name, over lent words: heads of buckets; then for each row a link, its owner and a count.
ghost use Rattle.std.specs.Prelude.{◌≡◌, true, ◌+◌, ◌≤◌, ◌<◌, length, replicate};
ghost use Rattle.grammar.specs.Limits.{table_rows};
ghost use Rattle.rules.specs.Rows.{past_children};
ghost use Rattle.rules.specs.Sound.{sound};
ghost use Rattle.children.specs.Index.{index_words, is_long, Filled};
ghost use Rattle.children.specs.Filling.{Put, OwnerPut, Counted, ChildrenAdded, ListAdded, InlineAdded};

use crate::hashes::{name_hash, owner_hash};
use crate::lists::scanned_mandatory;
use buckets::{BUCKETS, bucket_of};
use rows::names::name_of;
use rows::rows::{child_count, first_child, next_row, owns_struct, past_children};
use rules::{ROW_WORDS, TABLE_ROWS};

pub const INDEX_WORDS: usize = BUCKETS + TABLE_ROWS + TABLE_ROWS + TABLE_ROWS;

// Where the owners begin, and the counts.
pub const OWNERS: usize = BUCKETS + TABLE_ROWS;

pub const COUNTS: usize = BUCKETS + TABLE_ROWS + TABLE_ROWS;

// A list of more children than these is long.
const SHORT_LIST: usize = 16;

pub fn is_long(rows: &[u32], r: usize) -> bool
    ensures { result ≡ is_long rows.now r }
{
    SHORT_LIST < child_count(rows, r)
}

// Puts row c first in the bucket of a hash.
fn put_child(index: &mut [u32], hash: u32, c: usize)
    requires { (length index.old ≡ index_words) × (c < table_rows) }
    ensures { Put index.old hash c index.new }
{
    let h = bucket_of(hash);
    index[BUCKETS + c] = index[h];
    index[h] = (c + 1) as u32;
}

// Notes row r as the owner of row c.
fn put_owner(index: &mut [u32], c: usize, r: usize)
    requires { (length index.old ≡ index_words) × (c < table_rows) × (r < table_rows) }
    ensures { OwnerPut index.old c r index.new }
{
    index[OWNERS + c] = r as u32;
}

// Puts the children of row r into the index.
fn add_children(schema: &[u8], rows: &[u32], index: &mut [u32], r: usize)
    requires { (length index.old ≡ index_words) × (past_children rows.now r ≤ table_rows) }
    ensures { ChildrenAdded schema.now rows.now index.old r index.new }
{
    let mut c = first_child(rows, r);
    let mut left = child_count(rows, r);
    while 0 < left {
        let hash = owner_hash(name_hash(name_of(schema, rows, c)), r);
        put_child(index, hash, c);
        put_owner(index, c, r);
        c = next_row(rows, c);
        left -= 1;
    }
}

// Counts the mandatory children of row r.
fn put_count(rows: &[u32], index: &mut [u32], r: usize)
    requires { (length index.old ≡ index_words) × (past_children rows.now r ≤ table_rows) }
    ensures { Counted rows.now index.old r index.new }
{
    index[COUNTS + r] = scanned_mandatory(rows, r) as u32;
}

// Puts the list of row r into the index if it is long.
fn add_list(schema: &[u8], rows: &[u32], index: &mut [u32], r: usize)
    requires { (length index.old ≡ index_words) × (past_children rows.now r ≤ table_rows) }
    ensures { ListAdded schema.now rows.now index.old r index.new }
{
    if is_long(rows, r) {
        add_children(schema, rows, index, r);
        put_count(rows, index, r);
    }
}

// Puts the list of row r's inline struct into the index if there is one and it is long.
fn add_inline(schema: &[u8], rows: &[u32], index: &mut [u32], r: usize)
    requires { (length index.old ≡ index_words) × (past_children rows.now r ≤ table_rows) }
    ensures { InlineAdded schema.now rows.now index.old r index.new }
{
    if owns_struct(rows, r) {
        let s = next_row(rows, r);
        add_list(schema, rows, index, s);
    }
}

// Fills the index of a sound table: the rows are looked at definition by definition.
pub fn fill_index(schema: &[u8], rows: &[u32], index: &mut [u32])
    requires { (sound schema.now rows.now ≡ true) × (index.old ≡ replicate index_words 0) }
    ensures { Filled schema.now rows.now index.new }
{
    let n = rows.len() / ROW_WORDS;
    let mut r = 0;
    while r < n {
        add_inline(schema, rows, index, r);
        add_list(schema, rows, index, r);
        r = past_children(rows, r);
    }
}
