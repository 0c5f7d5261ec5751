// Where a reader stands, and the words in which its caller keeps that between calls.
ghost use Rattle.std.specs.Prelude.{◌≡◌};
ghost use Rattle.stream.specs.Serving.Feeding as feeding;
ghost use Rattle.stream.specs.Serving.States.{stands_for};
ghost use Rattle.stream.specs.Serving.Contracts.{standing_of, WordsOf, start_words};

use crate::brackets::Brackets;
use crate::mode::Mode;
use crate::steps::Place;

// Between messages; in what a refusal skips; or inside a message: the place, and how many of its bytes are in the buffer.
#[derive(Clone, Copy)]
pub enum State {
    Between,
    Skipping,
    Inside(Place, usize),
}

// The words: 0 for the mode is between messages, another that is none is skipping.
#[derive(Clone, Copy)]
pub struct Words {
    pub mode: u64,
    pub nest: u64,
    pub len: usize,
}

const BETWEEN: u64 = 0;

const SKIPPING: u64 = 1;

// The words of a reader that has read nothing.
pub fn start() -> Words
    ensures { result ≡ start_words }
{
    Words {
        mode: BETWEEN,
        nest: 0,
        len: 0,
    }
}

// What words stand for; where the mode or the brackets are none, skipping.
#[tactic(auto, unfolding(crate::specs::Serving::States::stands_for))]
pub fn state_of(w: Words) -> State
    ensures { stands_for w.mode w.nest w.len ≡ standing_of result }
{
    if w.mode == BETWEEN {
        return State::Between;
    }
    match (Mode::numbered(w.mode), Brackets::of_bits(w.nest)) {
        (Some(mode), Some(brackets)) => State::Inside(Place { mode, brackets }, w.len),
        _ => State::Skipping,
    }
}

// The words in which a state is kept.
pub fn words_of(s: State) -> Words
    ensures { WordsOf s result }
{
    match s {
        State::Between => start(),
        State::Skipping => Words {
            mode: SKIPPING,
            nest: 0,
            len: 0,
        },
        State::Inside(place, len) => Words {
            mode: place.mode.number(),
            nest: place.brackets.bits(),
            len,
        },
    }
}

// How many bytes of a message are in the buffer.
pub fn length_of(s: State) -> usize
    ensures { result ≡ feeding.length_of (standing_of s) }
{
    match s {
        State::Between | State::Skipping => 0,
        State::Inside(_place, len) => len,
    }
}
