// Rules 8 to 11, each a rule on the rows of one kind: one loop over the rows of a table for all of them.
ghost use Rattle.std.specs.Prelude.{◌≡◌, ◌<◌, ◌^◌, length};
ghost use Rattle.rows.specs.Rows.{Near};
ghost use Rattle.rows.specs.Hashes.{Hashes};
ghost use Rattle.table.specs.Kept.{ruled_kind, fits_rule, keeps_rule, Lent, Judged};

use crate::alternates::alternate_fits;
use crate::chains::chain_fits;
use crate::returns::return_fits;
use crate::unions::union_fits;
use rows::hashes::HashedRows;
use rows::rows::word;
use rules::{ROW_WORDS, kind, row};

// A rule on the rows of one kind: the chain of a struct, a union, an alternate, what a command returns.
// A value and no closure: by it `Lent` says what the words hold, and a closure would have to lend and change them for each rule.
#[derive(Clone, Copy)]
pub enum Rule {
    Chains,
    Unions,
    Alternates,
    Returns,
}

// The kind of the rows that a rule is on.
fn ruled_kind(rule: Rule) -> u32
    ensures { result ≡ ruled_kind rule }
{
    match rule {
        Rule::Chains => kind::STRUCT,
        Rule::Unions => kind::UNION,
        Rule::Alternates => kind::ALTERNATE,
        Rule::Returns => kind::COMMAND,
    }
}

// The rows with the hashes that rules 8 and 9 are lent.
fn hashed<'a>(schema: &'a [u8], rows: &'a [u32], hashes: &'a [u32]) -> HashedRows<'a>
    requires { Hashes schema.now rows.now hashes.now }
    ensures { (result.schema.now ≡ schema.now) × (result.rows.now ≡ rows.now) }
{
    HashedRows {
        schema,
        rows,
        hashes,
    }
}

// Whether row r, of the kind that the rule is on, keeps it.
fn row_fits(rule: Rule, schema: &[u8], rows: &[u32], words: &mut [u32], r: usize) -> bool
    requires { Near r × Lent rule schema.now rows.now words.old }
    ensures { Judged rule schema.now rows.now words.new (fits_rule rule schema.now rows.now r) result }
{
    match rule {
        Rule::Chains => chain_fits(hashed(schema, rows, words), r),
        Rule::Unions => union_fits(hashed(schema, rows, words), r),
        Rule::Alternates => alternate_fits(schema, rows, words, r),
        Rule::Returns => return_fits(rows, word(rows, r, row::RETURNS) as usize),
    }
}

// Whether every row of the kind that the rule is on keeps it. The words hold hashes of names, and from rule 10 on what enums look like.
pub fn every_row_fits(rule: Rule, schema: &[u8], rows: &[u32], words: &mut [u32]) -> bool
    requires { (length rows.now < 2 ^ 32) × Lent rule schema.now rows.now words.old }
    ensures { Judged rule schema.now rows.now words.new (keeps_rule rule schema.now rows.now) result }
{
    let k = ruled_kind(rule);
    for r in 0..rows.len() / ROW_WORDS {
        if word(rows, r, row::KIND) == k {
            if !row_fits(rule, schema, rows, words, r) {
                return false;
            }
        }
    }
    true
}
