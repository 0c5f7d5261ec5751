// Whole texts: a message is one value, a schema any number of objects, each with blanks around.
ghost use Rattle.std.specs.Prelude.{◌<◌, length};
ghost use Rattle.text.specs.Nodes.{text_bound};
ghost use Rattle.text.specs.Texts.{ReadsMessage, ReadsSchema, ReadsText};

use crate::reader::{TextError, read_at, read_value, stands};
use grammar::{MESSAGE_LEVELS, SCHEMA_LEVELS};
use strings::classes::Classes;
use strings::dialects::Dialect;
use strings::sources::Source;
use tokens::blanks::skip_blanks;

// The most bytes whose places a node's words can hold.
const MOST_BYTES: usize = 0x7FFF_FFFF;

// The value of a message, and no more.
fn read_whole(s: &[u8], classes: &Classes, nodes: &mut [u32]) -> Result<usize, TextError>
    requires { length s.now < text_bound }
    ensures { ReadsMessage s.now nodes.old nodes.new result }
{
    let source = Source {
        bytes: s,
        classes,
        dialect: Dialect::Message,
    };
    let value = read_value(source, nodes, 0, 0, MESSAGE_LEVELS)?;
    let p = skip_blanks(source, value.end);
    if p < s.len() {
        return Err(TextError::Fault(p));
    }
    Ok(value.next)
}

// The objects of a schema, one after the other.
fn read_objects(s: &[u8], classes: &Classes, nodes: &mut [u32]) -> Result<usize, TextError>
    requires { length s.now < text_bound }
    ensures { ReadsSchema s.now nodes.old nodes.new result }
{
    let source = Source {
        bytes: s,
        classes,
        dialect: Dialect::Schema,
    };
    let mut i = 0;
    let mut n = 0;
    'objects: loop {
        let p = skip_blanks(source, i);
        if s.len() <= p {
            return Ok(n);
        }
        if !stands(s, p, b'{') {
            return Err(TextError::Fault(p));
        }
        let object = read_at(source, nodes, p, n, SCHEMA_LEVELS)?;
        i = object.end;
        n = object.next;
    }
}

// A whole text of a dialect, from node 0 on: the number of its nodes.
pub fn read_text(s: &[u8], dialect: Dialect, nodes: &mut [u32]) -> Result<usize, TextError>
    ensures { ReadsText dialect s.now nodes.old nodes.new result }
{
    if MOST_BYTES < s.len() {
        return Err(TextError::TooLong);
    }
    let classes = Classes::new();
    match dialect {
        Dialect::Schema => read_objects(s, &classes, nodes),
        Dialect::Message => read_whole(s, &classes, nodes),
    }
}

// A message's value, from node 0 on: the number of its nodes.
pub fn read_message(s: &[u8], nodes: &mut [u32]) -> Result<usize, TextError>
    ensures { ReadsMessage s.now nodes.old nodes.new result }
{
    read_text(s, Dialect::Message, nodes)
}

// A schema's objects, from node 0 on: the number of their nodes.
pub fn read_schema(s: &[u8], nodes: &mut [u32]) -> Result<usize, TextError>
    ensures { ReadsSchema s.now nodes.old nodes.new result }
{
    read_text(s, Dialect::Schema, nodes)
}
