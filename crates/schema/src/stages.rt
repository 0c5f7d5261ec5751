// The stages of the compile call, from the table on: each rule is judged over the whole schema before the next.
// A broken rule gives the answer itself: a Result of the refusal would be turned into `SchemaAnswer` again in each stage, and is no plainer.
ghost use Rattle.std.specs.Prelude.{◌<◌, ◌^◌, length};
ghost use Rattle.table.specs.Definitions.{DefinitionLinks};
ghost use Rattle.rows.specs.Hashes.{Hashes};
ghost use Rattle.rules.specs.declared.SchemaRefusal.TheVariants.{BadName, BadChain, TooManyRows};
ghost use Rattle.schema.specs.Stages.{Answered, Zero, IsTable, Refers};

use rows::hashes::put_hashes;
use rules::{NOWHERE, ROW_WORDS, SchemaAnswer, SchemaRefusal, TABLE_ROWS};
use table::names::{distinct_names, good_names};
use table::rule::{Rule, every_row_fits};
use words::copy;

// Whether the rows are not too many and fit the lent ones, which then get the table.
fn judge_room(table: &[u32], rows: &mut [u32], schema: &[u8]) -> SchemaAnswer
    requires { (length table.now < 2 ^ 32) × Zero rows.old × IsTable schema.now table.now }
    ensures { Answered schema.now TooManyRows rows.old rows.new result }
{
    let n = table.len() / ROW_WORDS;
    if TABLE_ROWS < n {
        return SchemaAnswer::Refused(SchemaRefusal::TooManyRows, NOWHERE);
    }
    if rows.len() / ROW_WORDS < n {
        return SchemaAnswer::Refused(SchemaRefusal::NoRoom, NOWHERE);
    }
    copy(table, rows);
    SchemaAnswer::Accepted(n)
}

// The rules on chains, unions, alternates and returns. The words come with hashes of names.
fn judge_definitions(
    schema: &[u8],
    table: &[u32],
    words: &mut [u32],
    rows: &mut [u32],
) -> SchemaAnswer
    requires { (length table.now < 2 ^ 32) × Zero rows.old × IsTable schema.now table.now × Hashes schema.now table.now words.old }
    ensures { Answered schema.now BadChain rows.old rows.new result }
{
    if !every_row_fits(Rule::Chains, schema, table, words) {
        return SchemaAnswer::Refused(SchemaRefusal::BadChain, NOWHERE);
    }
    if !every_row_fits(Rule::Unions, schema, table, words) {
        return SchemaAnswer::Refused(SchemaRefusal::BadUnion, NOWHERE);
    }
    if !every_row_fits(Rule::Alternates, schema, table, words) {
        return SchemaAnswer::Refused(SchemaRefusal::BadAlternate, NOWHERE);
    }
    if !every_row_fits(Rule::Returns, schema, table, words) {
        return SchemaAnswer::Refused(SchemaRefusal::BadReturn, NOWHERE);
    }
    judge_room(table, rows, schema)
}

// The rules on names: good, distinct, and known, which `found` tells of those that refer. The hashes lend a word for each row, the links are those of the definitions' index.
pub fn judge_names(
    schema: &[u8],
    table: &[u32],
    hashes: &mut [u32],
    links: &mut [u32],
    found: bool,
    rows: &mut [u32],
) -> SchemaAnswer
    requires { (length table.now < 2 ^ 32) × DefinitionLinks schema.now table.now links.old × (length links.old < 2 ^ 32) × Zero rows.old × IsTable schema.now table.now × Refers schema.now found }
    ensures { Answered schema.now BadName rows.old rows.new result }
{
    if !good_names(schema, table) {
        return SchemaAnswer::Refused(SchemaRefusal::BadName, NOWHERE);
    }
    put_hashes(schema, table, hashes);
    if !distinct_names(schema, table, hashes, links) {
        return SchemaAnswer::Refused(SchemaRefusal::RepeatedName, NOWHERE);
    }
    if !found {
        return SchemaAnswer::Refused(SchemaRefusal::UnknownName, NOWHERE);
    }
    judge_definitions(schema, table, hashes, rows)
}
