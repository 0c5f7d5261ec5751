// Chains of bases and inherited members, by recursion over base links, the structs left falling: rule 8.
// Three walks, not one with a closure: they differ in what ends them, in order and in result (true or false at no link), so a closure is longer.
ghost use Rattle.std.specs.Prelude.{◌≡◌, eqb};
ghost use Rattle.rules.specs.Rows.{children, name_of};
ghost use Rattle.rules.specs.Rules.{any, chain_fits};
ghost use Rattle.rows.specs.Rows.{Near};
ghost use Rattle.table.specs.Chains.{chain_ends, has_child, is_member, lists_apart, number_of, members_apart};

use rows::hashes::{HashedRows, Sought};
use rows::names::name_of;
use rows::rows::word;
use rows::walk::children;
use rules::{CHAIN_STRUCTS, row};

// The most structs on the chain of a base: the struct that has it is the first one counted.
const BASE_STRUCTS: usize = CHAIN_STRUCTS - 1;

// Whether the chain from a link on ends after at most `left` structs.
pub fn chain_ends(rows: &[u32], link: usize, left: usize) -> bool
    ensures { result ≡ chain_ends rows.now left link }
{
    if link == 0 {
        return true;
    }
    if left == 0 {
        return false;
    }
    chain_ends(rows, word(rows, link - 1, row::BASE) as usize, left - 1)
}

// Whether row r has a child with the name of row c.
pub fn has_child(table: HashedRows<'_>, r: usize, c: usize) -> bool
    requires { Near r }
    ensures { result ≡ has_child table.entry.schema.now table.entry.rows.now r (name_of table.entry.schema.now table.entry.rows.now c) }
{
    let name = Sought::of(name_of(table.schema, table.rows, c));
    children(table.rows, r).any(|child| table.is_named(child, name))
}

// Whether no child of row s clashes with one of row r.
fn lists_apart(table: HashedRows<'_>, s: usize, r: usize) -> bool
    requires { Near s × Near r }
    ensures { result ≡ lists_apart table.entry.schema.now table.entry.rows.now s r }
{
    table.runs_apart(children(table.rows, s), children(table.rows, r))
}

// Whether row m is a child of row r.
fn is_child(rows: &[u32], r: usize, m: usize) -> bool
    requires { Near r }
    ensures { result ≡ any (eqb m) (children rows.now r) }
{
    children(rows, r).any(|child| child == m)
}

// Whether row m is a member of the struct with that link, its own or inherited.
pub fn is_member(rows: &[u32], link: usize, left: usize, m: usize) -> bool
    requires { Near link }
    ensures { result ≡ is_member rows.now left link m }
{
    if link == 0 {
        return false;
    }
    if left == 0 {
        return false;
    }
    let s = link - 1;
    is_member(rows, word(rows, s, row::BASE) as usize, left - 1, m) || is_child(rows, s, m)
}

// What the members of a struct are judged against: the children of a row, or the members of the struct with a link.
#[derive(Clone, Copy)]
pub enum Against {
    Children(usize),
    Members(usize),
}

// Whether no member of the struct with that link, its own or inherited, at most `left` structs up, clashes with one of the others.
pub fn members_apart(table: HashedRows<'_>, link: usize, left: usize, others: Against) -> bool
    requires { Near link × Near (number_of others) }
    ensures { result ≡ members_apart table.entry.schema.now table.entry.rows.now others left link }
{
    if link == 0 {
        return true;
    }
    if left == 0 {
        return true;
    }
    let s = link - 1;
    let base = word(table.rows, s, row::BASE) as usize;
    if !members_apart(table, base, left - 1, others) {
        return false;
    }
    match others {
        Against::Children(r) => lists_apart(table, s, r),
        Against::Members(other) => members_apart(table, other, CHAIN_STRUCTS, Against::Children(s)),
    }
}

// Whether the chain of struct r fits, and it repeats no inherited member.
pub fn chain_fits(table: HashedRows<'_>, r: usize) -> bool
    requires { Near r }
    ensures { result ≡ chain_fits table.entry.schema.now table.entry.rows.now r }
{
    let base = word(table.rows, r, row::BASE) as usize;
    if !chain_ends(table.rows, base, BASE_STRUCTS) {
        return false;
    }
    members_apart(table, base, BASE_STRUCTS, Against::Children(r))
}
