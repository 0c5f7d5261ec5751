// The command that a message names.
ghost use Rattle.std.specs.Prelude.{◌≡◌, ◌<◌};
ghost use Rattle.rules.specs.Rows.{row_count};
ghost use Rattle.message.specs.Commands.{is_named, first_named, NamesLong, FindsLong, FindsCommand};

use lookups::meanings::{decode_node, inner_bytes};
use lookups::values::{node_means, plain_kind};
use rows::names::{name_of, same_bytes};
use rows::rows::{wide, word_at};
use rules::{NAME_BYTES, ROW_WORDS, kind, row};
use strings::bytes::part_of;
use strings::dialects::Dialect;
use text::nodes::{NODE_KIND, node_word};

#[derive(Clone, Copy)]
pub enum Command {
    Row(usize),
    Unknown,
}

// Whether row r, one of the table's, is a command of that name: the sizes first, then the last bytes.
fn is_named(schema: &[u8], rows: &[u32], r: usize, name: &[u8]) -> bool
    requires { r < row_count rows.now }
    ensures { result ≡ is_named schema.now rows.now name.now r }
{
    if word_at(rows, r, row::KIND) != kind::COMMAND {
        return false;
    }
    let size = wide(word_at(rows, r, row::SIZE));
    if size < name.len() {
        return false;
    }
    let start = wide(word_at(rows, r, row::START));
    same_bytes(part_of(schema, start, size), name)
}

// The first command of that name.
fn named_command(schema: &[u8], rows: &[u32], name: &[u8]) -> Command
    ensures { result ≡ first_named schema.now rows.now name.now }
{
    let n = rows.len() / ROW_WORDS;
    let mut r = 0;
    while r < n {
        if is_named(schema, rows, r, name) {
            return Command::Row(r);
        }
        r += 1;
    }
    Command::Unknown
}

// Whether row r, one of the table's, is a command whose name is over NAME_BYTES long and what the string at node k means.
fn is_long_named(schema: &[u8], rows: &[u32], m: &[u8], nodes: &[u32], k: usize, r: usize) -> bool
    requires { r < row_count rows.now }
    ensures { NamesLong schema.now rows.now m.now nodes.now k r result }
{
    if word_at(rows, r, row::KIND) != kind::COMMAND {
        return false;
    }
    if wide(word_at(rows, r, row::SIZE)) <= NAME_BYTES {
        return false;
    }
    node_means(m, Dialect::Message, nodes, k, name_of(schema, rows, r))
}

// The first such command. A sound table has none.
fn long_command(schema: &[u8], rows: &[u32], m: &[u8], nodes: &[u32], k: usize) -> Command
    ensures { FindsLong schema.now rows.now m.now nodes.now k result }
{
    let n = rows.len() / ROW_WORDS;
    let mut r = 0;
    while r < n {
        if is_long_named(schema, rows, m, nodes, k, r) {
            return Command::Row(r);
        }
        r += 1;
    }
    Command::Unknown
}

// The first command whose name the string at node k means, where its bytes need not be its code points: it is decoded once.
fn coded_command(schema: &[u8], rows: &[u32], m: &[u8], nodes: &[u32], k: usize) -> Command
    ensures { FindsCommand schema.now rows.now m.now nodes.now k result }
{
    let mut bytes = [0u8; NAME_BYTES];
    match decode_node(m, nodes, k, &mut bytes) {
        Some(n) => named_command(schema, rows, &bytes[..n]),
        None => long_command(schema, rows, m, nodes, k),
    }
}

// The first command whose name the string at node k means.
pub fn find_command(schema: &[u8], rows: &[u32], m: &[u8], nodes: &[u32], k: usize) -> Command
    ensures { FindsCommand schema.now rows.now m.now nodes.now k result }
{
    if plain_kind(node_word(nodes, k, NODE_KIND)) {
        return named_command(schema, rows, inner_bytes(m, nodes, k));
    }
    coded_command(schema, rows, m, nodes, k)
}
