// Unions: rule 9.
ghost use Rattle.std.specs.Prelude.{◌≡◌};
ghost use Rattle.grammar.specs.Notation.{all};
ghost use Rattle.rules.specs.Rows.{children};
ghost use Rattle.rules.specs.Rules.{union_fits};
ghost use Rattle.rows.specs.Rows.{Near};
ghost use Rattle.table.specs.RuleParts.{can_discriminate, discriminates, branch_new};

use crate::chains::{Against, chain_ends, has_child, is_member, members_apart};
use builtins::FIRST_ROW;
use rows::hashes::HashedRows;
use rows::rows::word;
use rows::walk::children;
use rules::{CHAIN_STRUCTS, kind, row};

// Whether row d is a mandatory member, no array, of an enum type.
fn can_discriminate(rows: &[u32], d: usize) -> bool
    ensures { result ≡ can_discriminate rows.now d }
{
    if word(rows, d, row::OPTIONAL) != 0 {
        return false;
    }
    if word(rows, d, row::ARRAY_MARK) != 0 {
        return false;
    }
    let t = word(rows, d, row::TYPE_REF) as usize;
    if t < FIRST_ROW {
        return false;
    }
    word(rows, t - FIRST_ROW, row::KIND) == kind::ENUM
}

// Whether the discriminator of union r is a member of the base that can discriminate.
fn discriminator_fits(rows: &[u32], r: usize) -> bool
    ensures { result ≡ discriminates rows.now r }
{
    let link = word(rows, r, row::DISCRIMINATOR) as usize;
    if link == 0 {
        return false;
    }
    if !is_member(
        rows,
        word(rows, r, row::UNION_BASE) as usize,
        CHAIN_STRUCTS,
        link - 1,
    ) {
        return false;
    }
    can_discriminate(rows, link - 1)
}

// Whether branch b is named by a value of the enum at row e, and its struct repeats no member of the one with the link `base`.
fn branch_fits(table: HashedRows<'_>, b: usize, e: usize, base: usize) -> bool
    requires { Near e × Near base }
    ensures { result ≡ branch_new table.entry.schema.now table.entry.rows.now e base b }
{
    if !has_child(table, e, b) {
        return false;
    }
    let link = word(table.rows, b, row::BRANCH_STRUCT) as usize;
    if !chain_ends(table.rows, link, CHAIN_STRUCTS) {
        return false;
    }
    members_apart(table, link, CHAIN_STRUCTS, Against::Members(base))
}

// Whether every branch of union r fits.
fn branches_fit(table: HashedRows<'_>, r: usize, e: usize, base: usize) -> bool
    requires { Near r × Near e × Near base }
    ensures { result ≡ all (branch_new table.entry.schema.now table.entry.rows.now e base) (children table.entry.rows.now r) }
{
    children(table.rows, r).all(|b| branch_fits(table, b, e, base))
}

// Whether union r has a branch, a base whose chain ends, a discriminator in it, and branches that fit.
pub fn union_fits(table: HashedRows<'_>, r: usize) -> bool
    requires { Near r }
    ensures { result ≡ union_fits table.entry.schema.now table.entry.rows.now r }
{
    let rows = table.rows;
    if word(rows, r, row::BRANCH_COUNT) == 0 {
        return false;
    }
    let base = word(rows, r, row::UNION_BASE) as usize;
    if !chain_ends(rows, base, CHAIN_STRUCTS) {
        return false;
    }
    if !discriminator_fits(rows, r) {
        return false;
    }
    let discriminator = word(rows, r, row::DISCRIMINATOR) as usize - 1;
    let e = word(rows, discriminator, row::TYPE_REF) as usize - FIRST_ROW;
    branches_fit(table, r, e, base)
}
