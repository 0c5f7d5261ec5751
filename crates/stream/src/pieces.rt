// Pieces of a stream: a byte where the reader stands, and the bytes of a piece up to the first message or refusal.
ghost use Rattle.std.specs.Prelude.{◌≡◌, ◌≤◌, length};
ghost use Rattle.stream.specs.Stream.{clears};
ghost use Rattle.stream.specs.Serving.Feeding.{Standing, byte};
ghost use Rattle.stream.specs.Serving.Contracts.{plain, mode_of, open_of, standing_of, outcome_for, Runs, RunsStrings, Feeds};

use crate::brackets::Brackets;
use crate::mode::Mode;
use crate::state::{State, length_of};
use crate::steps::{Place, is_blank, opened, step};
use grammar::MESSAGE_BYTES;
use rules::MessageRefusal;

// After a byte: it is passed over; it is kept in the buffer as the next byte of a message, or as its last; the message is lost to a refusal, or to a byte that clears.
#[derive(Clone, Copy)]
pub enum Outcome {
    ToBetween,
    ToSkipping,
    Keep(Place),
    Whole,
    Lost(MessageRefusal),
    Cleared,
}

// What a call gives: where the reader stands now, as a state or as the words of one; what is handed out, a message of so many bytes, nothing, since the piece is over, or a refusal; and how many bytes
// of the piece are taken.
#[derive(Clone, Copy)]
pub struct Fed<S> {
    pub state: S,
    pub said: Result<Option<usize>, MessageRefusal>,
    pub taken: usize,
}

// 0xFF, or a byte below 0x20 other than tab, CR and LF.
fn is_clearing(b: u8) -> bool
    ensures { result ≡ clears b }
{
    b == 0xFF || (b < 0x20 && !is_blank(b))
}

// A byte between messages.
#[tactic(auto, unfolding(crate::specs::Serving::Feeding::byte))]
fn between_byte(limit: usize, b: u8) -> Outcome
    ensures { outcome_for result ≡ byte limit Standing.between b }
{
    if is_blank(b) || is_clearing(b) {
        return Outcome::ToBetween;
    }
    let object = b == b'{';
    if !object && b != b'[' {
        return Outcome::Lost(MessageRefusal::NotText);
    }
    if limit == 0 {
        return Outcome::Lost(MessageRefusal::TooLong);
    }
    Outcome::Keep(Place {
        mode: opened(object),
        brackets: Brackets::one(object),
    })
}

// A byte inside a message.
#[tactic(auto, unfolding(crate::specs::Serving::Feeding::byte))]
fn message_byte(limit: usize, place: Place, len: usize, b: u8) -> Outcome
    ensures { outcome_for result ≡ byte limit (Standing.inside (mode_of place.mode) (open_of place.brackets) len) b }
{
    if is_clearing(b) {
        return Outcome::Cleared;
    }
    if limit <= len {
        return Outcome::Lost(MessageRefusal::TooLong);
    }
    match step(place, b) {
        Ok(Some(next)) => Outcome::Keep(next),
        Ok(None) => Outcome::Whole,
        Err(x) => Outcome::Lost(x),
    }
}

#[tactic(auto, unfolding(crate::specs::Serving::Feeding::byte))]
fn next_byte(limit: usize, s: State, b: u8) -> Outcome
    ensures { outcome_for result ≡ byte limit (standing_of s) b }
{
    match s {
        State::Between => between_byte(limit, b),
        State::Skipping => {
            if is_clearing(b) {
                return Outcome::ToBetween;
            }
            Outcome::ToSkipping
        }
        State::Inside(place, len) => message_byte(limit, place, len, b),
    }
}

// A byte of a string that is a whole character.
#[tactic(auto, unfolding(crate::specs::Serving::Contracts::plain))]
fn is_plain(b: u8) -> bool
    ensures { result ≡ plain b }
{
    (0x20..=0x7F).contains(&b) && b != b'"' && b != b'\\'
}

// The plain bytes of a string from `from` on go to the buffer, from `at` on, as far as there is room. Gives where the first other byte is.
fn copy_plain(buffer: &mut [u8], piece: &[u8], from: usize, at: usize, limit: usize) -> usize
    requires { (from ≤ length piece.now) × (at ≤ limit) × (limit ≤ length buffer.old) }
    ensures { RunsStrings buffer.old piece.now from at limit buffer.new result }
{
    let end = from + usize::min(piece.len() - from, limit - at);
    for i in from..end {
        let b = piece[i];
        if !is_plain(b) {
            return i;
        }
        buffer[at + (i - from)] = b;
    }
    end
}

// In a string the plain bytes that follow are taken at once.
fn run_on(
    buffer: &mut [u8],
    piece: &[u8],
    mode: Mode,
    from: usize,
    at: usize,
    limit: usize,
) -> usize
    requires { (from ≤ length piece.now) × (at ≤ limit) × (limit ≤ length buffer.old) }
    ensures { Runs (mode_of mode) buffer.old piece.now from at limit buffer.new result }
{
    match mode {
        Mode::InString | Mode::InKey => copy_plain(buffer, piece, from, at, limit),
        _ => from,
    }
}

// The bytes of a piece, up to and with the first that has something handed out. A byte of a message is written at its index of the buffer.
pub fn feed(buffer: &mut [u8], piece: &[u8], s: State) -> Fed<State>
    ensures { Feeds buffer.old piece.now s buffer.new result }
{
    // The most bytes of a message where so many are lent for it.
    let limit = usize::min(MESSAGE_BYTES, buffer.len());
    let mut state = s;
    let mut i = 0;
    // A step is a byte or, in a string, a run of them, so the index is counted here.
    while i < piece.len() {
        let b = piece[i];
        let at = length_of(state);
        i += 1;
        match next_byte(limit, state, b) {
            Outcome::ToBetween => {
                state = State::Between;
            }
            Outcome::ToSkipping => {
                state = State::Skipping;
            }
            Outcome::Keep(place) => {
                buffer[at] = b;
                let e = run_on(buffer, piece, place.mode, i, at + 1, limit);
                state = State::Inside(place, at + 1 + (e - i));
                i = e;
            }
            Outcome::Whole => {
                buffer[at] = b;
                return Fed {
                    state: State::Between,
                    said: Ok(Some(at + 1)),
                    taken: i,
                };
            }
            Outcome::Lost(x) => {
                return Fed {
                    state: State::Skipping,
                    said: Err(x),
                    taken: i,
                };
            }
            Outcome::Cleared => {
                return Fed {
                    state: State::Between,
                    said: Err(MessageRefusal::NotText),
                    taken: i,
                };
            }
        }
    }
    Fed {
        state,
        said: Ok(None),
        taken: i,
    }
}
