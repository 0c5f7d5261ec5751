// A row's list of children, its values, members or branches, as keys and strings of a message ask for them.
ghost use Rattle.std.specs.Prelude.{◌≡◌, [], ◌∷◌};
ghost use Rattle.rows.specs.Rows.{Near};
ghost use Rattle.rules.specs.Rows.{children};
ghost use Rattle.children.specs.Counts.{mandatory_in};
ghost use Rattle.children.specs.Children.{RowNamed, ChildNamed, ChildScanned, ChildMeant, OwnMandatory};

use crate::index::is_long;
use crate::lookup::{indexed_child, indexed_mandatory};
use lookups::meanings::inner_bytes;
use lookups::values::{node_means, plain_kind};
use rows::names::{name_of, same_bytes};
use rows::rows::{child_count, first_child, next_row, wide, word};
use rules::row;
use strings::dialects::Dialect;
use text::nodes::{NODE_KIND, node_word};

// The link of the first child of row r that the key or string at node k means; 0 if there is none.
fn scanned_child(schema: &[u8], rows: &[u32], m: &[u8], nodes: &[u32], r: usize, k: usize) -> usize
    requires { Near r }
    ensures { ChildScanned schema.now rows.now m.now nodes.now r k result }
{
    let mut c = first_child(rows, r);
    let mut left = child_count(rows, r);
    while 0 < left {
        if node_means(m, Dialect::Message, nodes, k, name_of(schema, rows, c)) {
            return c + 1;
        }
        c = next_row(rows, c);
        left -= 1;
    }
    0
}

// Whether row c of a sound table has a name: most differ in size.
fn is_named(schema: &[u8], rows: &[u32], c: usize, name: &[u8]) -> bool
    ensures { RowNamed schema.now rows.now name.now c result }
{
    if wide(word(rows, c, row::SIZE)) != name.len() {
        return false;
    }
    same_bytes(name, name_of(schema, rows, c))
}

// The link of the first child of row r with a name; 0 if there is none.
fn named_child(schema: &[u8], rows: &[u32], r: usize, name: &[u8]) -> usize
    requires { Near r }
    ensures { ChildNamed schema.now rows.now name.now r result }
{
    let mut c = first_child(rows, r);
    let mut left = child_count(rows, r);
    while 0 < left {
        if is_named(schema, rows, c, name) {
            return c + 1;
        }
        c = next_row(rows, c);
        left -= 1;
    }
    0
}

// The link of the child of row r that the key or string at node k means, where the bytes of a plain one are compared as they are; 0 if there is none.
fn short_child(schema: &[u8], rows: &[u32], m: &[u8], nodes: &[u32], r: usize, k: usize) -> usize
    requires { Near r }
    ensures { ChildScanned schema.now rows.now m.now nodes.now r k result }
{
    if plain_kind(node_word(nodes, k, NODE_KIND)) {
        return named_child(schema, rows, r, inner_bytes(m, nodes, k));
    }
    scanned_child(schema, rows, m, nodes, r, k)
}

// The link of the child that is meant in a sound table: a short list is looked through, a long one has an index; 0 if there is none.
pub fn child_meant(
    schema: &[u8],
    rows: &[u32],
    m: &[u8],
    nodes: &[u32],
    index: &[u32],
    r: usize,
    k: usize,
) -> usize
    requires { Near r }
    ensures { ChildMeant schema.now rows.now m.now nodes.now index.now r k result }
{
    if is_long(rows, r) {
        return indexed_child(schema, rows, m, nodes, index, r, k);
    }
    short_child(schema, rows, m, nodes, r, k)
}

// 1 if member c is mandatory, else 0.
pub fn mandatory_one(rows: &[u32], c: usize) -> usize
    ensures { result ≡ mandatory_in rows.now (c ∷ []) }
{
    if word(rows, c, row::OPTIONAL) == 0 {
        return 1;
    }
    0
}

// How many children of row r are mandatory, where each is looked at.
pub fn scanned_mandatory(rows: &[u32], r: usize) -> usize
    requires { Near r }
    ensures { result ≡ mandatory_in rows.now (children rows.now r) }
{
    let mut n = 0;
    let mut c = first_child(rows, r);
    let mut left = child_count(rows, r);
    while 0 < left {
        n += mandatory_one(rows, c);
        c = next_row(rows, c);
        left -= 1;
    }
    n
}

// How many children of row r of a sound table are mandatory: a short list is looked through, the count of a long one stands in the index.
pub fn own_mandatory(rows: &[u32], index: &[u32], r: usize) -> usize
    requires { Near r }
    ensures { OwnMandatory rows.now index.now r result }
{
    if is_long(rows, r) {
        return indexed_mandatory(index, r);
    }
    scanned_mandatory(rows, r)
}
