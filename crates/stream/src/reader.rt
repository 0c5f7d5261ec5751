// The reader of a stream: its caller keeps its words and lends it a buffer for the message that is being read.
ghost use Rattle.stream.specs.Serving.Contracts.{ReadsPiece};

use crate::pieces::{Fed, feed};
use crate::state::{Words, state_of, words_of};

// Reads a piece up to its first message or refusal. What is left of it is for the next call, with the same buffer.
pub fn read_piece(buffer: &mut [u8], piece: &[u8], w: Words) -> Fed<Words>
    ensures { ReadsPiece buffer.old piece.now w buffer.new result }
{
    let f = feed(buffer, piece, state_of(w));
    Fed {
        state: words_of(f.state),
        said: f.said,
        taken: f.taken,
    }
}
