// Whether a table is sound: any words, over any schema bytes.
ghost use Rattle.std.specs.Prelude.{◌≡◌, ◌*◌, ◌≤◌, ◌<◌, ◌^◌, length};
ghost use Rattle.grammar.specs.Limits.{row_words};
ghost use Rattle.rules.specs.Sound.{sound};
ghost use Rattle.rows.specs.Hashes.{Hashes};
ghost use Rattle.table.specs.RuleParts.{names_within, rows_fit, shaped, definitions_fit, keeps_rules};

use crate::layout::{is_laid_out, rest_zero};
use crate::links::references_fit;
use crate::names::{distinct_names, good_names, index_definitions};
use crate::rule::{Rule, every_row_fits};
use buckets::BUCKETS;
use rows::hashes::put_hashes;
use rows::rows::word;
use rules::{ROW_WORDS, SCHEMA_BYTES, TABLE_ROWS, row};

const TABLE_WORDS: usize = TABLE_ROWS * ROW_WORDS;

// Whether every name lies within the schema.
fn names_within(schema: &[u8], rows: &[u32]) -> bool
    requires { length rows.now < 2 ^ 32 }
    ensures { result ≡ names_within schema.now rows.now }
{
    for r in 0..rows.len() / ROW_WORDS {
        if schema.len() < word(rows, r, row::START) as usize + word(rows, r, row::SIZE) as usize {
            return false;
        }
    }
    true
}

// Whether every row uses its words and refers as it should.
fn rows_fit(rows: &[u32]) -> bool
    requires { length rows.now < 2 ^ 32 }
    ensures { result ≡ rows_fit rows.now }
{
    for r in 0..rows.len() / ROW_WORDS {
        if !rest_zero(rows, r) {
            return false;
        }
        if !references_fit(rows, r) {
            return false;
        }
    }
    true
}

// Whether the words are rows that fall into definitions, with names and references that fit.
fn is_shaped(schema: &[u8], rows: &[u32]) -> bool
    requires { length rows.now < 2 ^ 32 }
    ensures { result ≡ shaped schema.now rows.now }
{
    if !names_within(schema, rows) {
        return false;
    }
    if !is_laid_out(rows) {
        return false;
    }
    rows_fit(rows)
}

// Rules 8 to 11: chains, unions, alternates and what commands return. The words come with hashes of names.
fn definitions_fit(schema: &[u8], rows: &[u32], words: &mut [u32]) -> bool
    requires { (length rows.now < 2 ^ 32) × Hashes schema.now rows.now words.old }
    ensures { result ≡ definitions_fit schema.now rows.now }
{
    if !every_row_fits(Rule::Chains, schema, rows, words) {
        return false;
    }
    if !every_row_fits(Rule::Unions, schema, rows, words) {
        return false;
    }
    if !every_row_fits(Rule::Alternates, schema, rows, words) {
        return false;
    }
    every_row_fits(Rule::Returns, schema, rows, words)
}

// Rules 5 to 11, of which 7 is that references fit; with room for a hash and a link of each row lent.
fn keeps_rules(schema: &[u8], rows: &[u32], hashes: &mut [u32], links: &mut [u32]) -> bool
    requires { (length rows.now < 2 ^ 32) × (length rows.now ≤ row_words * length links.old) × (length links.old < 2 ^ 32) }
    ensures { result ≡ keeps_rules schema.now rows.now }
{
    if !good_names(schema, rows) {
        return false;
    }
    put_hashes(schema, rows, hashes);
    let mut heads = [0u32; BUCKETS];
    index_definitions(schema, rows, &mut heads, links);
    if !distinct_names(schema, rows, hashes, links) {
        return false;
    }
    definitions_fit(schema, rows, hashes)
}

// Whether the table is sound.
pub fn is_sound(schema: &[u8], rows: &[u32]) -> bool
    ensures { result ≡ sound schema.now rows.now }
{
    if rows.len() % ROW_WORDS != 0 {
        return false;
    }
    if TABLE_WORDS < rows.len() {
        return false;
    }
    if SCHEMA_BYTES < schema.len() {
        return false;
    }
    if !is_shaped(schema, rows) {
        return false;
    }
    let n = rows.len() / ROW_WORDS;
    let mut hashes = [0u32; TABLE_ROWS];
    let mut links = [0u32; TABLE_ROWS];
    keeps_rules(schema, rows, &mut hashes[..n], &mut links)
}
