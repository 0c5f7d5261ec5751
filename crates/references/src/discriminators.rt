// Discriminators become links to members of the base, found by recursion over base links, the structs left falling.
ghost use Rattle.std.specs.Prelude.{◌≡◌, ◌+◌, ◌*◌, ◌≤◌, ◌<◌, length};
ghost use Rattle.grammar.specs.Limits.{row_words};
ghost use Rattle.rules.specs.Rows.{row_count, children};
ghost use Rattle.rules.specs.SchemaTable.{member_in};
ghost use Rattle.rows.specs.Rows.{Near};
ghost use Rattle.references.specs.Lookups.{row_of};
ghost use Rattle.references.specs.Discriminators as Spec;

use crate::find::named_by;
use rows::names::{name_of, same_bytes};
use rows::rows::word;
use rows::walk::children;
use rules::{CHAIN_STRUCTS, ROW_WORDS, kind, row};
use table::chains::chain_ends;

// The child of row r that has the name.
fn child(s: &[u8], rows: &[u32], r: usize, name: &[u8]) -> Option<usize>
    requires { Near r }
    ensures { result ≡ row_of (member_in s.now rows.now name.now (children rows.now r)) }
{
    children(rows, r).find(|c| same_bytes(name, name_of(s, rows, *c)))
}

// The member of that name of the struct with a link, inherited ones first, at most `left` structs up.
fn member(s: &[u8], rows: &[u32], link: usize, left: usize, name: &[u8]) -> Option<usize>
    requires { Near link }
    ensures { result ≡ row_of (Spec.member_link s.now rows.now left link name.now) }
{
    if link == 0 {
        return None;
    }
    if left == 0 {
        return None;
    }
    let struct_row = link - 1;
    let base = word(rows, struct_row, row::BASE) as usize;
    let inherited = member(s, rows, base, left - 1, name);
    if inherited.is_some() {
        return inherited;
    }
    child(s, rows, struct_row, name)
}

// What the discriminator of union r, which a word names, becomes; 0 if there is no such member.
fn discriminator_link(s: &[u8], rows: &[u32], r: usize) -> u32
    ensures { result ≡ Spec.discriminator_found s.now r rows.now }
{
    let base = word(rows, r, row::UNION_BASE) as usize;
    if !chain_ends(rows, base, CHAIN_STRUCTS) {
        return 0;
    }
    let name = named_by(s, word(rows, r, row::DISCRIMINATOR));
    match member(s, rows, base, CHAIN_STRUCTS, name) {
        Some(m) => u32::try_from(m.saturating_add(1)).unwrap_or(0),
        None => 0,
    }
}

fn put_discriminator(s: &[u8], rows: &mut [u32], r: usize)
    requires { row_words * r + row_words ≤ length rows.old }
    ensures { rows.new ≡ Spec.put_discriminator s.now r rows.old }
{
    if word(rows, r, row::KIND) == kind::UNION {
        let link = discriminator_link(s, rows, r);
        rows[ROW_WORDS * r + row::DISCRIMINATOR] = link;
    }
}

// Every discriminator.
pub fn put_discriminators(s: &[u8], rows: &mut [u32])
    ensures { rows.new ≡ Spec.put_discriminators s.now (row_count rows.old) rows.old }
{
    for r in 0..rows.len() / ROW_WORDS {
        put_discriminator(s, rows, r);
    }
}
