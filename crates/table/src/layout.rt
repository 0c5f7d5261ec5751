// The layout: rows fall into definitions, each followed by its inline struct and its children.
ghost use Rattle.std.specs.Prelude.{◌≡◌, ◌+◌, ◌<◌, ◌^◌, length, []};
ghost use Rattle.rules.specs.Rows.{row_count};
ghost use Rattle.rows.specs.Rows.{Near, Countable};
ghost use Rattle.rules.specs.Sound.{children_fit, inline_fits, definition_at, laid_out, words_used, rest_zero};

use crate::names::is_definition;
use rows::rows::{next_row, owns_struct, past_children, word};
use rows::walk::children;
use rules::{ROW_WORDS, kind, row};

// Whether every child of row r is of the kind after r's.
fn children_fit(rows: &[u32], r: usize) -> bool
    requires { Countable r }
    ensures { result ≡ children_fit rows.now r }
{
    let k = word(rows, r, row::KIND) as usize + 1;
    children(rows, r).all(|child| word(rows, child, row::KIND) as usize == k)
}

// Whether the children of row r's inline struct fit, if it has one.
fn inline_fits(rows: &[u32], r: usize) -> bool
    requires { Near r }
    ensures { result ≡ inline_fits rows.now r }
{
    if !owns_struct(rows, r) {
        return true;
    }
    children_fit(rows, next_row(rows, r))
}

// Whether a definition begins at row r. Its inline struct is judged before its children, which are found by a walk over that one's.
fn definition_at(rows: &[u32], r: usize) -> bool
    requires { Near r }
    ensures { result ≡ definition_at rows.now r }
{
    if !is_definition(rows, r) {
        return false;
    }
    if !inline_fits(rows, r) {
        return false;
    }
    children_fit(rows, r)
}

// Whether the rows fall into definitions.
pub fn is_laid_out(rows: &[u32]) -> bool
    requires { length rows.now < 2 ^ 32 }
    ensures { result ≡ laid_out rows.now (row_count rows.now) 0 }
{
    let n = rows.len() / ROW_WORDS;
    let mut r = 0;
    while r < n {
        if !definition_at(rows, r) {
            return false;
        }
        r = past_children(rows, r);
    }
    r == n
}

// The words that each kind uses: up to its last one.
const ENUM_WORDS: usize = row::COUNT + 1;

const VALUE_WORDS: usize = row::SIZE + 1;

const STRUCT_WORDS: usize = row::BASE + 1;

const MEMBER_WORDS: usize = row::OPTIONAL + 1;

const UNION_WORDS: usize = row::DISCRIMINATOR + 1;

const BRANCH_WORDS: usize = row::BRANCH_STRUCT + 1;

const ALTERNATE_WORDS: usize = row::COUNT + 1;

const ALTERNATIVE_WORDS: usize = row::TYPE_REF + 1;

const COMMAND_WORDS: usize = row::RETURNS_ARRAY + 1;

// How many words a kind uses.
fn words_used(k: u32) -> usize
    ensures { result ≡ words_used [] k }
{
    match k {
        kind::ENUM => ENUM_WORDS,
        kind::VALUE => VALUE_WORDS,
        kind::STRUCT => STRUCT_WORDS,
        kind::MEMBER => MEMBER_WORDS,
        kind::UNION => UNION_WORDS,
        kind::BRANCH => BRANCH_WORDS,
        kind::ALTERNATE => ALTERNATE_WORDS,
        kind::ALTERNATIVE => ALTERNATIVE_WORDS,
        kind::COMMAND => COMMAND_WORDS,
        _ => 0,
    }
}

// Whether the words that row r's kind does not use are 0.
pub fn rest_zero(rows: &[u32], r: usize) -> bool
    ensures { result ≡ rest_zero rows.now r }
{
    for i in words_used(word(rows, r, row::KIND))..ROW_WORDS {
        if word(rows, r, i) != 0 {
            return false;
        }
    }
    true
}
