// Names of definitions and of what is in them: rules 5 and 6.
ghost use Rattle.std.specs.Prelude.{◌≡◌, ◌*◌, ◌≤◌, ◌<◌, ◌^◌, ◌||◌, eqb, length, replicate};
ghost use Rattle.grammar.specs.Limits.{row_words};
ghost use Rattle.buckets.specs.Buckets.{buckets};
ghost use Rattle.rules.specs.Kinds.{value_kind, branch_kind};
ghost use Rattle.rules.specs.Rules.{is_definition, good_names, distinct_names};
ghost use Rattle.rows.specs.Rows.{Near};
ghost use Rattle.rows.specs.Hashes.{Hashes};
ghost use Rattle.table.specs.Definitions.{name_fits, DefinitionIndex, DefinitionLinks, RowEntered, DefinitionApart, definitions_clear, children_apart};

use buckets::{BUCKETS, add, next};
use builtins::names::built_in;
use rows::hashes::{HashedRows, Sought, hash_of};
use rows::names::{good_name, name_of};
use rows::rows::{child_count, first_child, is_unnamed, word};
use rules::{ROW_WORDS, kind, row};
use strings::classes::Classes;

// Whether every name is good; an inline struct has none.
pub fn good_names(schema: &[u8], rows: &[u32]) -> bool
    requires { length rows.now < 2 ^ 32 }
    ensures { result ≡ good_names schema.now rows.now }
{
    let classes = Classes::new();
    for r in 0..rows.len() / ROW_WORDS {
        if !name_fits(schema, rows, &classes, r) {
            return false;
        }
    }
    true
}

// Whether a name of that kind of row, an enum value or a branch, may begin with a digit.
fn takes_digit(k: u32) -> bool
    ensures { result ≡ (eqb k value_kind || eqb k branch_kind) }
{
    matches!(k, kind::VALUE | kind::BRANCH)
}

// Whether row r is an inline struct or has a good name.
fn name_fits(schema: &[u8], rows: &[u32], classes: &Classes, r: usize) -> bool
    requires { Near r }
    ensures { result ≡ name_fits schema.now rows.now r }
{
    if is_unnamed(rows, r) {
        return true;
    }
    good_name(
        name_of(schema, rows, r),
        classes,
        takes_digit(word(rows, r, row::KIND)),
    )
}

// Whether row r is a definition of its own.
pub fn is_definition(rows: &[u32], r: usize) -> bool
    requires { Near r }
    ensures { result ≡ is_definition rows.now r }
{
    let k = word(rows, r, row::KIND);
    match k {
        kind::ENUM => true,
        kind::STRUCT => !is_unnamed(rows, r),
        kind::UNION => true,
        kind::ALTERNATE => true,
        kind::COMMAND => true,
        _ => false,
    }
}

// Adds row r to an index if it is a definition.
fn index_row(schema: &[u8], rows: &[u32], heads: &mut [u32; BUCKETS], links: &mut [u32], r: usize)
    requires { (r < length links.old) × (length links.old < 2 ^ 32) }
    ensures { RowEntered schema.now rows.now heads.old links.old r heads.new links.new }
{
    if is_definition(rows, r) {
        add(heads, links, hash_of(name_of(schema, rows, r)), r);
    }
}

// Adds every definition to an empty index, the last first.
pub fn index_definitions(schema: &[u8], rows: &[u32], heads: &mut [u32; BUCKETS], links: &mut [u32])
    requires { (length rows.now ≤ row_words * length links.old) × (length links.old < 2 ^ 32) × (heads.old ≡ replicate buckets 0) }
    ensures { DefinitionIndex schema.now rows.now heads.new links.new }
{
    for r in (0..rows.len() / ROW_WORDS).rev() {
        index_row(schema, rows, heads, links, r);
    }
}

// Whether row r is no definition, or has a name that is no built-in's and clashes with none of the definitions after it.
fn definition_apart(table: HashedRows<'_>, links: &[u32], r: usize) -> bool
    requires { Near r }
    ensures { DefinitionApart table.entry.schema.now table.entry.rows.now links.now r result }
{
    if !is_definition(table.rows, r) {
        return true;
    }
    let name = name_of(table.schema, table.rows, r);
    if built_in(name).is_some() {
        return false;
    }
    table.is_unlisted(links, next(links, r), Sought::of(name))
}

// Whether no two definitions have names that clash, and none one that clashes with a built-in's.
fn definitions_apart(table: HashedRows<'_>, links: &[u32]) -> bool
    requires { (length table.rows.now < 2 ^ 32) × DefinitionLinks table.schema.now table.rows.now links.now }
    ensures { result ≡ definitions_clear table.entry.schema.now table.entry.rows.now }
{
    for r in 0..table.rows.len() / ROW_WORDS {
        if !definition_apart(table, links, r) {
            return false;
        }
    }
    true
}

// Whether in each list of values, members, branches or alternatives no two names are the same. The links are scratch.
fn children_apart(table: HashedRows<'_>, links: &mut [u32]) -> bool
    requires { (length table.rows.now < 2 ^ 32) × (length links.old < 2 ^ 32) }
    ensures { result ≡ children_apart table.entry.schema.now table.entry.rows.now }
{
    for r in 0..table.rows.len() / ROW_WORDS {
        let a = first_child(table.rows, r);
        let m = child_count(table.rows, r);
        if !table.all_apart(links, a, m) {
            return false;
        }
    }
    true
}

// Rule 6. The links are those of the definitions' index, and scratch afterwards.
pub fn distinct_names(schema: &[u8], rows: &[u32], hashes: &[u32], links: &mut [u32]) -> bool
    requires { (length rows.now < 2 ^ 32) × Hashes schema.now rows.now hashes.now × DefinitionLinks schema.now rows.now links.old × (length links.old < 2 ^ 32) }
    ensures { result ≡ distinct_names schema.now rows.now }
{
    let table = HashedRows {
        schema,
        rows,
        hashes,
    };
    if !definitions_apart(table, links) {
        return false;
    }
    children_apart(table, links)
}
