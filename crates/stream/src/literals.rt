// The bytes of a number, and of null, true and false, one at a time.
#![tactic(auto, unfolding(grammar::specs::Serving::Machine::Message::number_step))]

ghost use Rattle.std.specs.Prelude.{◌≡◌, ◌∷◌};
ghost use Rattle.grammar.specs.Serving.Machine.Message.{number_step, number_end};
ghost use Rattle.grammar.specs.Serving.Machine.Message.NumberState.{begin, after_minus, after_zero};
ghost use Rattle.stream.specs.Serving.Contracts.{number_of, number_turn_of, is_some, spelling, rest_of};

use crate::mode::{NumberMode, Word};

// Where a number starts, after its minus.
fn begin_integer(b: u8) -> Option<NumberMode>
    ensures { number_turn_of result ≡ number_step after_minus b }
{
    match b {
        b'0' => Some(NumberMode::AfterZero),
        b'1'..=b'9' => Some(NumberMode::InInteger),
        _ => None,
    }
}

// Where a value may start.
pub fn begin_number(b: u8) -> Option<NumberMode>
    ensures { number_turn_of result ≡ number_step begin b }
{
    if b == b'-' {
        Some(NumberMode::AfterMinus)
    } else {
        begin_integer(b)
    }
}

// After the integer part.
fn after_integer(b: u8) -> Option<NumberMode>
    ensures { number_turn_of result ≡ number_step after_zero b }
{
    match b {
        b'.' => Some(NumberMode::AfterPoint),
        b'e' | b'E' => Some(NumberMode::AfterE),
        _ => None,
    }
}

// A byte inside a number: what is read after it, if it belongs to the number.
pub fn number_turn(n: NumberMode, b: u8) -> Option<NumberMode>
    ensures { number_turn_of result ≡ number_step (number_of n) b }
{
    match (n, b) {
        (NumberMode::AfterMinus, _) => begin_integer(b),
        (NumberMode::AfterZero, _) => after_integer(b),
        (NumberMode::InInteger, b'0'..=b'9') => Some(NumberMode::InInteger),
        (NumberMode::InInteger, _) => after_integer(b),
        (NumberMode::AfterPoint | NumberMode::InFraction, b'0'..=b'9') => Some(
            NumberMode::InFraction,
        ),
        (NumberMode::InFraction, b'e' | b'E') => Some(NumberMode::AfterE),
        (NumberMode::AfterE, b'-' | b'+') => Some(NumberMode::AfterSign),
        (NumberMode::AfterE | NumberMode::AfterSign | NumberMode::InExponent, b'0'..=b'9') => Some(
            NumberMode::InExponent,
        ),
        _ => None,
    }
}

// Whether a number may end here.
pub fn may_end(n: NumberMode) -> bool
    ensures { result ≡ is_some (number_end (number_of n)) }
{
    matches!(
        n,
        NumberMode::AfterZero
            | NumberMode::InInteger
            | NumberMode::InFraction
            | NumberMode::InExponent
    )
}

// The byte that a word wants, and what of it is read after that byte.
pub fn wanted(w: Word) -> (u8, Option<Word>)
    ensures { spelling w ≡ result.0 ∷ rest_of result.1 }
{
    match w {
        Word::Ull => (b'u', Some(Word::Ll)),
        Word::Ll => (b'l', Some(Word::L)),
        Word::Rue => (b'r', Some(Word::Ue)),
        Word::Ue => (b'u', Some(Word::E)),
        Word::Alse => (b'a', Some(Word::Lse)),
        Word::Lse => (b'l', Some(Word::Se)),
        Word::Se => (b's', Some(Word::E)),
        Word::L => (b'l', None),
        Word::E => (b'e', None),
    }
}
