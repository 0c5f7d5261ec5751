// The words of rows that name become links and type references, in place.
ghost use Rattle.std.specs.Prelude.{◌≡◌, ◌+◌, ◌*◌, ◌≤◌, ◌<◌, ◌^◌, length};
ghost use Rattle.grammar.specs.Limits.{row_words};
ghost use Rattle.rules.specs.Rows.{row_count};
ghost use Rattle.table.specs.Definitions.{DefinitionIndex};
ghost use Rattle.references.specs.Steps.{put_at, found_at, put_data, found_data, put_command, found_command, slot_of, put_row, found_row, put_rows, found_rows, Puts};

use crate::find::{DefinitionNames, referred};
use rows::rows::{owns_struct, word};
use rules::{ROW_WORDS, kind, row};

// Word k becomes what it names; whether it names nothing or something.
fn put(names: &DefinitionNames, rows: &mut [u32], structs: bool, k: usize) -> bool
    requires { (length rows.old < 2 ^ 32) × (k < length rows.old) }
    ensures { Puts names.now.schema.now rows.old names.now.heads.now names.now.links.now (λ T. put_at names.now.schema.now T structs k) (λ T. found_at names.now.schema.now T structs k) rows.new result }
{
    let w = rows[k];
    let named = referred(names, rows, structs, w);
    rows[k] = named.unwrap_or(0);
    (w == 0) | named.is_some()
}

// The base of union r or the data of command r, unless it is inline.
fn put_data(names: &DefinitionNames, rows: &mut [u32], r: usize) -> bool
    requires { (length rows.old < 2 ^ 32) × (row_words * r + row_words ≤ length rows.old) }
    ensures { Puts names.now.schema.now rows.old names.now.heads.now names.now.links.now (λ T. put_data names.now.schema.now T r) (λ T. found_data names.now.schema.now T r) rows.new result }
{
    if owns_struct(rows, r) {
        return true;
    }
    put(names, rows, true, ROW_WORDS * r + row::OWNER_LINK)
}

// The data and the return of command r.
fn put_command(names: &DefinitionNames, rows: &mut [u32], r: usize) -> bool
    requires { (length rows.old < 2 ^ 32) × (row_words * r + row_words ≤ length rows.old) }
    ensures { Puts names.now.schema.now rows.old names.now.heads.now names.now.links.now (λ T. put_command names.now.schema.now T r) (λ T. found_command names.now.schema.now T r) rows.new result }
{
    put_data(names, rows, r) & put(names, rows, false, ROW_WORDS * r + row::RETURNS)
}

// What a row names by its words: a struct or any type, by one word; what a union or a command does; or nothing.
#[derive(Clone, Copy)]
enum Slot {
    Word(bool, usize),
    Data,
    Command,
    Nothing,
}

// What a row of kind k names, but for a discriminator.
fn slot_of(k: u32) -> Slot
    ensures { result ≡ slot_of k }
{
    match k {
        kind::STRUCT => Slot::Word(true, row::BASE),
        kind::MEMBER => Slot::Word(false, row::TYPE_REF),
        kind::UNION => Slot::Data,
        kind::BRANCH => Slot::Word(true, row::BRANCH_STRUCT),
        kind::ALTERNATIVE => Slot::Word(false, row::TYPE_REF),
        kind::COMMAND => Slot::Command,
        _ => Slot::Nothing,
    }
}

// The names that row r refers to, but for a discriminator; whether each found its row.
fn resolve_row(names: &DefinitionNames, rows: &mut [u32], r: usize) -> bool
    requires { (length rows.old < 2 ^ 32) × (row_words * r + row_words ≤ length rows.old) }
    ensures { Puts names.now.schema.now rows.old names.now.heads.now names.now.links.now (λ T. put_row names.now.schema.now T r) (λ T. found_row names.now.schema.now T r) rows.new result }
{
    match slot_of(word(rows, r, row::KIND)) {
        Slot::Word(structs, i) => put(names, rows, structs, ROW_WORDS * r + i),
        Slot::Data => put_data(names, rows, r),
        Slot::Command => put_command(names, rows, r),
        Slot::Nothing => true,
    }
}

// Resolves every row but for discriminators; whether every name found its row.
pub fn resolve_rows(names: &DefinitionNames, rows: &mut [u32]) -> bool
    requires { (length rows.old < 2 ^ 32) × DefinitionIndex names.now.schema.now rows.old names.now.heads.now names.now.links.now }
    ensures { (rows.new ≡ put_rows names.now.schema.now rows.old (row_count rows.old)) × (result ≡ found_rows names.now.schema.now rows.old (row_count rows.old)) }
{
    let mut all = true;
    for r in 0..rows.len() / ROW_WORDS {
        all &= resolve_row(names, rows, r);
    }
    all
}
