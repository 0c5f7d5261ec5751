// The compile call, from the bytes to the table; then the stages from the table on.
ghost use Rattle.std.specs.Prelude.{◌≤◌, length, None};
ghost use Rattle.grammar.specs.Limits.{schema_bytes};
ghost use Rattle.rules.specs.declared.SchemaRefusal.TheVariants.{NotText, RepeatedKey, NotDefinitions, BadName};
ghost use Rattle.text.specs.Keys.{FirstRepeat};
ghost use Rattle.strings.specs.Strings.{grammar_of};
ghost use Rattle.strings.specs.declared.dialects.Dialect.TheVariants.{Schema};
ghost use Rattle.schema.specs.Stages.{Answered, Zero, TextRead, RawRows, Compiles};

use crate::stages::judge_names;
use buckets::BUCKETS;
use definitions::definitions::put_definitions;
use references::resolve;
use rules::{NOWHERE, ROW_WORDS, SCHEMA_BYTES, SchemaAnswer, SchemaRefusal};
use strings::dialects::Dialect;
use table::names::index_definitions;
use text::keys::first_repeat;
use text::nodes::{NODE_WORDS, Tree};
use text::reader::TextError;
use text::texts::read_schema;
use words::clear;

// There is at most one node for every two bytes, and at most one row for each node.
const MOST_NODES: usize = SCHEMA_BYTES / 2;

const MOST_ROWS: usize = MOST_NODES;

const NODE_ROOM: usize = NODE_WORDS * MOST_NODES;

const ROW_ROOM: usize = ROW_WORDS * MOST_ROWS;

// The rows become the table: names that refer become links and references. Then the rules, over it.
fn judge_table(schema: &[u8], table: &mut [u32], rows: &mut [u32]) -> SchemaAnswer
    requires { RawRows schema.now table.old × Zero rows.old }
    ensures { Answered schema.now BadName rows.old rows.new result }
{
    let mut heads = [0u32; BUCKETS];
    let mut links = [0u32; MOST_ROWS];
    index_definitions(schema, table, &mut heads, &mut links);
    let found = resolve(schema, table, &heads, &links);
    let mut hashes = [0u32; MOST_ROWS];
    let n = table.len() / ROW_WORDS;
    judge_names(schema, table, &mut hashes[..n], &mut links, found, rows)
}

// The objects of a text in which no key is repeated: definitions all of them. A function of its own, so that only what gets here pays for the words of the rows.
fn judge_rows(schema: &[u8], nodes: &[u32], count: usize, rows: &mut [u32]) -> SchemaAnswer
    requires { TextRead schema.now nodes.now count × FirstRepeat (grammar_of Schema) schema.now nodes.now count None × Zero rows.old }
    ensures { Answered schema.now NotDefinitions rows.old rows.new result }
{
    let mut table = [0u32; ROW_ROOM];
    match put_definitions(schema, nodes, count, &mut table) {
        Err(_) => SchemaAnswer::Refused(SchemaRefusal::NotDefinitions, NOWHERE),
        Ok(n) => {
            let end = ROW_WORDS * n;
            judge_table(schema, &mut table[..end], rows)
        }
    }
}

// The objects of the text, by its nodes: the earliest key that is repeated, then the definitions.
fn judge_objects(schema: &[u8], nodes: &[u32], count: usize, rows: &mut [u32]) -> SchemaAnswer
    requires { TextRead schema.now nodes.now count × Zero rows.old }
    ensures { Answered schema.now RepeatedKey rows.old rows.new result }
{
    let tree = Tree {
        bytes: schema,
        dialect: Dialect::Schema,
        nodes,
    };
    if let Some(place) = first_repeat(tree, count) {
        return SchemaAnswer::Refused(SchemaRefusal::RepeatedKey, place);
    }
    judge_rows(schema, nodes, count, rows)
}

// The text, read into nodes.
fn judge_text(schema: &[u8], rows: &mut [u32]) -> SchemaAnswer
    requires { (length schema.now ≤ schema_bytes) × Zero rows.old }
    ensures { Answered schema.now NotText rows.old rows.new result }
{
    let mut nodes = [0u32; NODE_ROOM];
    match read_schema(schema, &mut nodes) {
        Ok(count) => judge_objects(schema, &nodes, count, rows),
        Err(TextError::Fault(place)) => SchemaAnswer::Refused(SchemaRefusal::NotText, place),
        Err(TextError::Deep(place)) => SchemaAnswer::Refused(SchemaRefusal::NotText, place),
        Err(TextError::TooLong) => SchemaAnswer::Refused(SchemaRefusal::NotText, NOWHERE),
    }
}

// Compiles a schema into the lent rows: the number of rows of its table, or why it is refused.
pub fn compile_schema(schema: &[u8], rows: &mut [u32]) -> SchemaAnswer
    ensures { Compiles schema.now rows.old rows.new result }
{
    clear(rows, 0);
    if SCHEMA_BYTES < schema.len() {
        return SchemaAnswer::Refused(SchemaRefusal::TooLong, NOWHERE);
    }
    judge_text(schema, rows)
}
