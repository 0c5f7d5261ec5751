// What tests and benchmarks in other languages call of the inner layers. The gateway itself does not use it.
#![tactic(auto)]

ghost use Rattle.std.specs.Prelude.{◌≡◌, cond, ◌-◌, leb, take, drop};
ghost use Rattle.grammar.specs.Integers.{negative, unsigned_part, decimal};
ghost use Rattle.strings.specs.Strings.{grammar_of};
ghost use Rattle.strings.specs.Meanings.{MeansName, MeansSame};
ghost use Rattle.probe.specs.Probe.{dialect_of, verdict, place, Probed, KeysProbed, row_of, CommandProbed};

use message::commands::{Command, find_command};
use rules::ROW_WORDS;
use strings::dialects::Dialect;
use strings::meanings::{means, same_meaning};
use text::keys::first_repeat;
use text::nodes::Tree;
use text::reader::TextError;
use text::texts::read_text;
use tokens::integers::in_range;

// The dialect that a caller in another language names.
fn dialect_of(schema: bool) -> Dialect
    ensures { result ≡ dialect_of schema }
{
    if schema {
        return Dialect::Schema;
    }
    Dialect::Message
}

// 0 whole, 1 a fault, 2 too deep, 3 too long.
fn verdict_of(t: Result<usize, TextError>) -> u32
    ensures { result ≡ verdict t }
{
    match t {
        Ok(_n) => 0,
        Err(TextError::Fault(_e)) => 1,
        Err(TextError::Deep(_e)) => 2,
        Err(TextError::TooLong) => 3,
    }
}

// The number of nodes, or the place.
fn place_of(t: Result<usize, TextError>) -> usize
    ensures { result ≡ place t }
{
    match t {
        Ok(n) => n,
        Err(TextError::Fault(e)) => e,
        Err(TextError::Deep(e)) => e,
        Err(TextError::TooLong) => 0,
    }
}

// The verdict on a text, its nodes, and their number or the place of the fault.
#[unsafe(no_mangle)]
pub extern "C" fn windosprio_probe_text(
    s: &[u8],
    schema: bool,
    nodes: &mut [u32],
    found: &mut usize,
) -> u32
    ensures { Probed schema s.now nodes.old nodes.new result found.new }
{
    let t = read_text(s, dialect_of(schema), nodes);
    *found = place_of(t);
    verdict_of(t)
}

// The place of the earliest key, in the objects of the first `count` nodes, that repeats one before it; the number of bytes if there is none.
#[unsafe(no_mangle)]
pub extern "C" fn windosprio_probe_keys(
    s: &[u8],
    schema: bool,
    nodes: &[u32],
    count: usize,
) -> usize
    ensures { KeysProbed (grammar_of (dialect_of schema)) s.now nodes.now count result }
{
    let tree = Tree {
        bytes: s,
        dialect: dialect_of(schema),
        nodes,
    };
    first_repeat(tree, count).unwrap_or(s.len())
}

// Whether the integer from a to e lies from -low to high.
#[unsafe(no_mangle)]
pub extern "C" fn windosprio_probe_range(s: &[u8], a: usize, e: usize, low: u64, high: u64) -> bool
    ensures { result ≡ leb (decimal 0 (unsigned_part (take (e - a) (drop a s.now)))) (cond (negative (take (e - a) (drop a s.now))) low high) }
{
    in_range(s, a, e, low, high)
}

// Whether the string from a to e means the bytes `name`.
#[unsafe(no_mangle)]
pub extern "C" fn windosprio_probe_means(
    s: &[u8],
    schema: bool,
    a: usize,
    e: usize,
    plain: bool,
    name: &[u8],
) -> bool
    ensures { MeansName (grammar_of (dialect_of schema)) s.now a e plain name.now result }
{
    means(s, dialect_of(schema), a, e, plain, name)
}

// Whether the strings from a to e and from b to f mean the same.
#[unsafe(no_mangle)]
pub extern "C" fn windosprio_probe_same(
    s: &[u8],
    schema: bool,
    a: usize,
    e: usize,
    plain_a: bool,
    b: usize,
    f: usize,
    plain_b: bool,
) -> bool
    ensures { MeansSame (grammar_of (dialect_of schema)) s.now a e plain_a b f plain_b result }
{
    same_meaning(s, dialect_of(schema), a, e, plain_a, b, f, plain_b)
}

fn row_of(found: Command, rows: &[u32]) -> usize
    ensures { result ≡ row_of rows.now found }
{
    match found {
        Command::Row(r) => r,
        Command::Unknown => rows.len() / ROW_WORDS,
    }
}

// The row of the first command whose name the string at a node of the message means; the number of rows if there is none.
#[unsafe(no_mangle)]
pub extern "C" fn windosprio_probe_command(
    rows: &[u32],
    schema: &[u8],
    message: &[u8],
    nodes: &[u32],
    node: usize,
) -> usize
    ensures { CommandProbed schema.now rows.now message.now nodes.now node result }
{
    row_of(find_command(schema, rows, message, nodes, node), rows)
}
