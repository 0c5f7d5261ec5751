// Readers of values, containers and entries that call each other, the count of levels left falling.
ghost use Rattle.std.specs.Prelude.{◌≡◌, get_or};
ghost use Rattle.strings.specs.Strings.{grammar_of};
ghost use Rattle.tokens.specs.Tokens.{Solid, Unbracketed};
ghost use Rattle.text.specs.Containers.{opening};
ghost use Rattle.text.specs.declared.containers.Container.TheVariants.{Object};
ghost use Rattle.text.specs.Readers.{Stands, Ready, Opens, ReadsLeaf, ReadsValue, ReadsEntry, spare, value_spare};

use crate::containers::{Container, opening_at};
use crate::nodes::put_node;
use strings::chars::Fault;
use strings::sources::Source;
use tokens::blanks::skip_blanks;
use tokens::scalars::read_scalar;
use tokens::separators::{Following, read_following, read_key};

// The place past what was read, and the next node.
#[derive(Clone, Copy, PartialEq, Eq)]
pub struct Past {
    pub end: usize,
    pub next: usize,
}

// The place of the first byte that fits nothing; or that of a bracket that opens a level too many; or more bytes than nodes can speak of.
#[derive(Clone, Copy, PartialEq, Eq)]
pub enum TextError {
    Fault(usize),
    Deep(usize),
    TooLong,
}

impl From<Fault> for TextError {
    ghost use Rattle.text.specs.declared.reader.TextError.TheVariants as TextErrors;

    ghost from_gives = { λ e r. r ≡ TextErrors.Fault e.at };

    fn from(e: Fault) -> TextError {
        TextError::Fault(e.at)
    }
}

// The byte b stands at `i`.
pub fn stands(s: &[u8], i: usize, b: u8) -> bool
    ensures { Stands s.now i b result }
{
    if s.len() <= i {
        return false;
    }
    s[i] == b
}

// The scalar at `i` as node k.
fn scalar_node(source: Source, nodes: &mut [u32], i: usize, k: usize) -> Result<Past, TextError>
    requires { Ready source.bytes.now i k × Unbracketed (grammar_of source.dialect) source.bytes.now i }
    ensures { ReadsLeaf (grammar_of source.entry.dialect) source.entry.bytes.now nodes.old nodes.new i k result }
{
    let scalar = read_scalar(source, i)?;
    let next = k + 1;
    put_node(nodes, k, scalar.kind, i, scalar.end, next);
    Ok(Past {
        end: scalar.end,
        next,
    })
}

// The value after blanks at `i`, from node k on, with `left` levels left.
#[cycle(readers)]
pub fn read_value(
    source: Source,
    nodes: &mut [u32],
    i: usize,
    k: usize,
    left: usize,
) -> Result<Past, TextError>
    requires { Ready source.bytes.now i k }
    ensures { ReadsValue value_spare (grammar_of source.entry.dialect) source.entry.bytes.now nodes.old nodes.new i k left result }
{
    let p = skip_blanks(source, i);
    read_at(source, nodes, p, k, left)
}

// The value that stands at `at`, where no blank does, from node k on.
#[cycle(readers)]
pub fn read_at(
    source: Source,
    nodes: &mut [u32],
    at: usize,
    k: usize,
    left: usize,
) -> Result<Past, TextError>
    requires { Ready source.bytes.now at k × Solid (grammar_of source.dialect) source.bytes.now at }
    ensures { ReadsValue (spare (get_or source.entry.bytes.now at 0)) (grammar_of source.entry.dialect) source.entry.bytes.now nodes.old nodes.new at k left result }
{
    match opening_at(source.bytes, at) {
        Some(shape) => read_container(source, nodes, shape, at, k, left),
        None => scalar_node(source, nodes, at, k),
    }
}

// The container whose bracket stands at `at`, as node k.
#[cycle(readers)]
fn read_container(
    source: Source,
    nodes: &mut [u32],
    shape: Container,
    at: usize,
    k: usize,
    left: usize,
) -> Result<Past, TextError>
    requires { Opens shape source.bytes.now at k }
    ensures { ReadsValue (spare (opening shape)) (grammar_of source.entry.dialect) source.entry.bytes.now nodes.old nodes.new at k left result }
{
    if left == 0 {
        return Err(TextError::Deep(at));
    }
    let close = shape.closing();
    let first = skip_blanks(source, at + 1);
    let mut next = k + 1;
    if stands(source.bytes, first, close) {
        let end = first + 1;
        put_node(nodes, k, shape.node(), at, end, next);
        return Ok(Past { end, next });
    }
    let mut i = first;
    loop {
        let entry = read_entry(source, nodes, shape, i, next, left - 1)?;
        next = entry.next;
        match read_following(source, entry.end, close)? {
            Following::Comma(past) => {
                i = past;
            }
            Following::Close(end) => {
                put_node(nodes, k, shape.node(), at, end, next);
                return Ok(Past { end, next });
            }
        }
    }
}

// The entry after blanks at `i`, from node k on: a value of an array, or a member of an object.
#[cycle(readers)]
fn read_entry(
    source: Source,
    nodes: &mut [u32],
    shape: Container,
    i: usize,
    k: usize,
    left: usize,
) -> Result<Past, TextError>
    requires { Ready source.bytes.now i k }
    ensures { ReadsEntry shape (grammar_of source.entry.dialect) source.entry.bytes.now nodes.old nodes.new i k left result }
{
    match shape {
        Container::Array => read_value(source, nodes, i, k, left),
        Container::Object => read_member(source, nodes, i, k, left),
    }
}

// The member after blanks at `i`: its key as node k, its value from node k + 1 on.
#[cycle(readers)]
fn read_member(
    source: Source,
    nodes: &mut [u32],
    i: usize,
    k: usize,
    left: usize,
) -> Result<Past, TextError>
    requires { Ready source.bytes.now i k }
    ensures { ReadsEntry Object (grammar_of source.entry.dialect) source.entry.bytes.now nodes.old nodes.new i k left result }
{
    let key = read_key(source, i)?;
    let value = read_value(source, nodes, key.past, k + 1, left)?;
    put_node(nodes, k, key.kind, key.start, key.end, value.next);
    Ok(Past {
        end: value.end,
        next: value.next,
    })
}
