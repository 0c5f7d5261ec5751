// A long list of children, asked through the index.
ghost use Rattle.std.specs.Prelude.{◌≡◌, ◌≤◌, length, get_or};
ghost use Rattle.rows.specs.Rows.{Near};
ghost use Rattle.children.specs.Index.{index_words, count_place};
ghost use Rattle.children.specs.Lookup.{RowMeant, ChildListed, ChildIndexed};

use crate::hashes::{meaning_hash, owner_hash};
use crate::index::{COUNTS, INDEX_WORDS, OWNERS};
use buckets::{BUCKETS, bucket_of};
use lookups::values::node_means;
use rows::names::name_of;
use rows::rows::wide;
use rules::TABLE_ROWS;
use strings::dialects::Dialect;

// Word i, as a number; 0 past the end.
fn number_at(words: &[u32], i: usize) -> usize
    ensures { result ≡ get_or words.now i 0 }
{
    if words.len() <= i {
        return 0;
    }
    wide(words[i])
}

// Whether row c is a child of row r whose name the key or string at node k means.
fn is_meant(
    schema: &[u8],
    rows: &[u32],
    m: &[u8],
    nodes: &[u32],
    owners: &[u32],
    r: usize,
    k: usize,
    c: usize,
) -> bool
    ensures { RowMeant schema.now rows.now m.now nodes.now owners.now r k c result }
{
    if number_at(owners, c) != r {
        return false;
    }
    node_means(m, Dialect::Message, nodes, k, name_of(schema, rows, c))
}

// The link of the first such row that follows the word `head`; 0 if there is none.
fn listed_child(
    schema: &[u8],
    rows: &[u32],
    m: &[u8],
    nodes: &[u32],
    index: &[u32],
    head: usize,
    r: usize,
    k: usize,
) -> usize
    requires { index_words ≤ length index.now }
    ensures { ChildListed schema.now rows.now m.now nodes.now index.now head r k result }
{
    let links = &index[BUCKETS..OWNERS];
    let owners = &index[OWNERS..COUNTS];
    let mut word = head;
    let mut left = TABLE_ROWS;
    while 0 < left {
        if word == 0 {
            return 0;
        }
        let c = word - 1;
        if is_meant(schema, rows, m, nodes, owners, r, k, c) {
            return word;
        }
        word = number_at(links, c);
        left -= 1;
    }
    0
}

// The link of the child of row r that the key or string at node k means, by the index; 0 if there is none.
pub fn indexed_child(
    schema: &[u8],
    rows: &[u32],
    m: &[u8],
    nodes: &[u32],
    index: &[u32],
    r: usize,
    k: usize,
) -> usize
    ensures { ChildIndexed schema.now rows.now m.now nodes.now index.now r k result }
{
    if index.len() < INDEX_WORDS {
        return 0;
    }
    let hash = owner_hash(meaning_hash(m, nodes, k), r);
    let head = number_at(index, bucket_of(hash));
    listed_child(schema, rows, m, nodes, index, head, r, k)
}

// How many children of row r are mandatory, by the index.
pub fn indexed_mandatory(index: &[u32], r: usize) -> usize
    requires { Near r }
    ensures { result ≡ get_or index.now (count_place r) 0 }
{
    number_at(index, COUNTS + r)
}
