// One line of the input answered, wherever reads cut it.
ghost use Rattle.std.specs.Prelude.{◌+◌, ◌<◌, ◌≤◌, length};
ghost use Rattle.grammar.specs.Limits.{message_bytes};
ghost use Rattle.console.specs.Program.{record_room};
ghost use Rattle.console.specs.Serving.Steps.{longest_line, Steps};

use crate::answers::{Session, put_answer};
use crate::joins::join_line;
use crate::rooms::Rooms;

// What is left of a chunk after a line, and how many record words of its answer are to be shown.
#[derive(Clone, Copy)]
pub struct Taken<'a> {
    pub rest: &'a [u8],
    pub words: usize,
}

// The line that goes on in the chunk, put together and answered; or the chunk is used up, and what it has of the line is kept.
pub fn take_line<'a, const L: usize, const O: usize>(
    session: &Session,
    chunk: &'a [u8],
    rooms: &mut Rooms<L, O>,
) -> Option<Taken<'a>>
    requires { (message_bytes < L) × (length rooms.old.out + longest_line ≤ O) }
    ensures { Steps session.now.style session.now.types.schema.now session.now.types.table.now record_room chunk.now rooms.old rooms.new result }
{
    match join_line(&mut rooms.line, chunk) {
        None => None,
        Some(rest) => {
            let words = put_answer(
                session,
                rooms.line.bytes(),
                &mut rooms.records,
                &mut rooms.out,
            );
            Some(Taken { rest, words })
        }
    }
}
