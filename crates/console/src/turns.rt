// Standard input, chunk by chunk. What is answered is written before the next read.
ghost use Rattle.std.specs.Prelude.{◌+◌, ◌<◌, ◌≤◌, ◌≡◌, [], length, IfOk, MatchOption};
ghost use Rattle.console.specs.Serving.Steps.{longest_line, out_room};
ghost use Rattle.console.specs.Serving.Beginning.{TableOf};

use crate::answers::Session;
use crate::rooms::{LINE_ROOM, LONGEST_LINE, OUT_ROOM, Rooms};
use crate::showing::show_records;
use crate::steps::take_line;
use lines::page::Page;
use std::io;
use std::io::{Print, Read};
use trees::tree::Tree;

// Room for what is read at once.
const CHUNK: usize = 65536;

// What is put is written where records are to be shown after it, which follow, or where there is no room for another line.
fn write_on<R: Print>(rt: &R, tree: &Tree, out: &mut Page<OUT_ROOM>) -> io::Result<()>
    ensures { IfOk result (λ _. length out.new + longest_line ≤ out_room) }
{
    if tree.records.is_empty() && LONGEST_LINE <= out.left() {
        return Ok(());
    }
    rt.write_all(out.bytes())?;
    out.clear();
    show_records(rt, tree, out)
}

// Answers the line that ends in the chunk, of which nothing is kept; or there is none.
fn answer_line<'a, R: Print>(
    rt: &R,
    session: &Session,
    chunk: &'a [u8],
    rooms: &mut Rooms<LINE_ROOM, OUT_ROOM>,
) -> io::Result<Option<&'a [u8]>>
    requires { length rooms.old.out + longest_line ≤ out_room }
    ensures { IfOk result (λ left. (length rooms.new.out + longest_line ≤ out_room) × MatchOption left (rooms.new.out ≡ rooms.old.out) (λ rest. (length rest.now < length chunk.now) × (rooms.new.line ≡ []))) }
{
    match take_line(session, chunk, rooms) {
        None => Ok(None),
        Some(taken) => {
            let tree = Tree {
                types: session.types,
                message: rooms.line.bytes(),
                records: &rooms.records[..taken.words],
            };
            write_on(rt, &tree, &mut rooms.out)?;
            rooms.line.clear();
            Ok(Some(taken.rest))
        }
    }
}

// Answers every line that ends in a chunk, and keeps what follows the last.
fn take_chunk<R: Print>(
    rt: &R,
    session: &Session,
    chunk: &[u8],
    rooms: &mut Rooms<LINE_ROOM, OUT_ROOM>,
) -> io::Result<()>
    requires { rooms.old.out ≡ [] }
    ensures { IfOk result (λ _. rooms.new.out ≡ []) }
{
    let mut left = chunk;
    while let Some(rest) = answer_line(rt, session, left, rooms)? {
        left = rest;
    }
    rt.write_all(rooms.out.bytes())?;
    rooms.out.clear();
    Ok(())
}

// At the end of the input a last line without LF is answered as one with it.
fn take_last<R: Print>(
    rt: &R,
    session: &Session,
    rooms: &mut Rooms<LINE_ROOM, OUT_ROOM>,
) -> io::Result<()>
    requires { rooms.old.out ≡ [] }
{
    if rooms.line.len() == 0 {
        return Ok(());
    }
    take_chunk(rt, session, b"\n", rooms)
}

// How many bytes of the next chunk of the input there are; none at its end, and where it can't be read.
fn read_some<I: Read>(input: &mut I, chunk: &mut [u8]) -> usize
    ensures { result ≤ length chunk.new }
{
    match input.read(chunk) {
        Err(_) => 0,
        Ok(n) => n,
    }
}

// Answers every line of standard input, by the table of an accepted schema.
// A proved loop has to end, and nothing says that input does: the loop counts to a number that no run reaches.
pub fn take_input<R: Print, I: Read>(rt: &R, input: &mut I, session: &Session) -> io::Result<()>
    requires { TableOf session.now.types.schema.now session.now.types.table.now }
{
    let mut chunk = [0u8; CHUNK];
    let mut rooms = Rooms::<LINE_ROOM, OUT_ROOM>::new();
    for _turn in 0..u64::MAX {
        let n = read_some(input, &mut chunk);
        if n == 0 {
            return take_last(rt, session, &mut rooms);
        }
        take_chunk(rt, session, &chunk[..n], &mut rooms)?;
    }
    Ok(())
}
