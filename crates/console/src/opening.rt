// How a run begins: what is put first, by what was read of the schema file, and whether messages follow.
ghost use Rattle.std.specs.Prelude.{◌+◌, ◌≤◌, ◌≡◌, length, option_map};
ghost use Rattle.grammar.specs.Limits.{schema_bytes};
ghost use Rattle.wordings.specs.Serving.Rooms.{schema_head_room};
ghost use Rattle.console.specs.Program.{table_room};
ghost use Rattle.console.specs.Serving.Beginning.{ShortFile, table_words, Opens};

use crate::answers::{Style, put_schema_answer};
use crate::rooms::words_of;
use lines::page::Page;
use rules::{ROW_WORDS, SchemaAnswer};
use schema::compile::compile_schema;

// Messages follow an accepted schema alone, by the rows counted of those lent.
fn table_words(answer: SchemaAnswer, lent: usize) -> Option<usize>
    ensures { result ≡ table_words answer lent }
{
    match answer {
        SchemaAnswer::Refused(_x, _p) => None,
        SchemaAnswer::Accepted(count) => Some(words_of(count, ROW_WORDS, lent)),
    }
}

// The schema, compiled into the rows, and its line.
fn open_schema<const N: usize>(
    style: Style,
    schema: &[u8],
    rows: &mut [u32],
    out: &mut Page<N>,
) -> Option<usize>
    requires { (length rows.old ≡ table_room) × (length out.old + schema_head_room ≤ N) × (length schema.now ≤ schema_bytes + 1) }
    ensures { Opens style (Some schema.now) rows.new out.old out.new result }
{
    let answer = compile_schema(schema, rows);
    put_schema_answer(style, schema, answer, out);
    table_words(answer, rows.len())
}

// Puts the first line; where messages follow, answers how many words the table of the schema has.
pub fn open_run<const N: usize>(
    style: Style,
    file: Option<&[u8]>,
    rows: &mut [u32],
    out: &mut Page<N>,
) -> Option<usize>
    requires { ShortFile (option_map (λ bytes. bytes.now) file) × (length rows.old ≡ table_room) × (length out.old + schema_head_room ≤ N) }
    ensures { Opens style (option_map (λ bytes. bytes.now) file.entry) rows.new out.old out.new result }
{
    match file {
        None => {
            out.put(b"no schema\n");
            None
        }
        Some(schema) => open_schema(style, schema, rows, out),
    }
}
