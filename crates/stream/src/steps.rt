// A byte inside a message: what is read next, and the open brackets.
ghost use Rattle.std.specs.Prelude.{◌≡◌, Ok, Some};
ghost use Rattle.grammar.specs.Lexis.{blank};
ghost use Rattle.stream.specs.Serving.Modes as modes;
ghost use Rattle.stream.specs.Serving.Feeding.{outcome_of};
ghost use Rattle.stream.specs.Serving.Contracts.{point_of, number_of, spelling, mode_of, CharGoes, open_of, stepped};

use crate::brackets::Brackets;
use crate::chars::{CharTurn, begin_char, char_turn};
use crate::literals::{begin_number, may_end, number_turn, wanted};
use crate::mode::{Mode, NumberMode, Point, Word};
use rules::MessageRefusal;

// What is read next, and the open brackets.
#[derive(Clone, Copy)]
pub struct Place {
    pub mode: Mode,
    pub brackets: Brackets,
}

// After a byte: a place, or none where the outermost bracket is closed; the byte is refused where no text goes on so, or only one with more levels.
pub type Turn = Result<Option<Place>, MessageRefusal>;

fn go(mode: Mode, brackets: Brackets) -> Turn
    ensures { result ≡ Ok (Some (record { mode = mode; brackets = brackets })) }
{
    Ok(Some(Place { mode, brackets }))
}

#[tactic(auto, unfolding(grammar::specs::Lexis::blank))]
pub fn is_blank(b: u8) -> bool
    ensures { result ≡ blank b }
{
    matches!(b, b' ' | b'\t' | b'\n' | b'\r')
}

// What is read next in a bracket that has just been opened.
pub fn opened(object: bool) -> Mode
    ensures { mode_of result ≡ modes.opened_mode object }
{
    Mode::At(if object {
        Point::FirstKey
    } else {
        Point::Element
    })
}

fn open_bracket(object: bool, brackets: Brackets) -> Turn
    ensures { stepped result ≡ outcome_of (modes.open_turn object (open_of brackets)) }
{
    match brackets.open(object) {
        Some(more) => go(opened(object), more),
        None => Err(MessageRefusal::TooDeep),
    }
}

fn close_bracket(brackets: Brackets) -> Turn
    ensures { stepped result ≡ outcome_of (modes.close_turn (open_of brackets)) }
{
    match brackets.close() {
        Some(rest) => go(Mode::At(Point::After), rest),
        None => Ok(None),
    }
}

fn begin_word(brackets: Brackets, b: u8) -> Turn
    ensures { stepped result ≡ outcome_of (modes.word_turn b (open_of brackets)) }
{
    match b {
        b'n' => go(Mode::InWord(Word::Ull), brackets),
        b't' => go(Mode::InWord(Word::Rue), brackets),
        b'f' => go(Mode::InWord(Word::Alse), brackets),
        _ => Err(MessageRefusal::NotText),
    }
}

fn begin_value(brackets: Brackets, b: u8) -> Turn
    ensures { stepped result ≡ outcome_of (modes.value_turn (open_of brackets) b) }
{
    match b {
        b'"' => go(Mode::InString, brackets),
        b'[' => open_bracket(false, brackets),
        b'{' => open_bracket(true, brackets),
        _ => match begin_number(b) {
            Some(n) => go(Mode::InNumber(n), brackets),
            None => begin_word(brackets, b),
        },
    }
}

fn begin_key(brackets: Brackets, b: u8) -> Turn
    ensures { stepped result ≡ outcome_of (modes.key_turn (open_of brackets) b) }
{
    if b == b'"' {
        go(Mode::InKey, brackets)
    } else {
        Err(MessageRefusal::NotText)
    }
}

// After a value: a comma, or the end of what it stands in.
fn follow(brackets: Brackets, b: u8) -> Turn
    ensures { stepped result ≡ outcome_of (modes.follow_turn (open_of brackets) b) }
{
    match (brackets.in_object(), b) {
        (true, b',') => go(Mode::At(Point::Key), brackets),
        (false, b',') => go(Mode::At(Point::Value), brackets),
        (true, b'}') | (false, b']') => close_bracket(brackets),
        _ => Err(MessageRefusal::NotText),
    }
}

// A byte at a point: a blank, or a token.
fn at_point(point: Point, brackets: Brackets, b: u8) -> Turn
    ensures { stepped result ≡ outcome_of (modes.at_turn (point_of point) (open_of brackets) b) }
{
    if is_blank(b) {
        return go(Mode::At(point), brackets);
    }
    match (point, b) {
        (Point::Element, b']') | (Point::FirstKey, b'}') => close_bracket(brackets),
        (Point::Value | Point::Element, _) => begin_value(brackets, b),
        (Point::FirstKey | Point::Key, _) => begin_key(brackets, b),
        (Point::Colon, b':') => go(Mode::At(Point::Value), brackets),
        (Point::Colon, _) => Err(MessageRefusal::NotText),
        (Point::After, _) => follow(brackets, b),
    }
}

// After a byte of a character in a string, or in a key.
fn in_char(turn: CharTurn, key: bool, brackets: Brackets) -> Turn
    ensures { (t : modes.CharTurn) → CharGoes turn t → stepped result ≡ outcome_of (modes.in_char_turn t key (open_of brackets)) }
{
    let mode = match (turn?, key) {
        (Some(c), false) => Mode::InStringChar(c),
        (Some(c), true) => Mode::InKeyChar(c),
        (None, false) => Mode::InString,
        (None, true) => Mode::InKey,
    };
    go(mode, brackets)
}

#[tactic(auto, unfolding(crate::specs::Serving::Modes::turn))]
fn in_string(key: bool, brackets: Brackets, b: u8) -> Turn
    ensures { stepped result ≡ outcome_of (modes.turn (modes.Mode.in_string key) (open_of brackets) b) }
{
    if b == b'"' {
        return go(
            Mode::At(if key { Point::Colon } else { Point::After }),
            brackets,
        );
    }
    in_char(begin_char(b), key, brackets)
}

#[tactic(auto, unfolding(crate::specs::Serving::Modes::turn))]
fn in_number(n: NumberMode, brackets: Brackets, b: u8) -> Turn
    ensures { stepped result ≡ outcome_of (modes.turn (modes.Mode.in_number (number_of n)) (open_of brackets) b) }
{
    match number_turn(n, b) {
        Some(next) => go(Mode::InNumber(next), brackets),
        None if may_end(n) => at_point(Point::After, brackets, b),
        None => Err(MessageRefusal::NotText),
    }
}

#[tactic(auto, unfolding(crate::specs::Serving::Modes::turn))]
fn in_word(w: Word, brackets: Brackets, b: u8) -> Turn
    ensures { stepped result ≡ outcome_of (modes.turn (modes.spelled (spelling w)) (open_of brackets) b) }
{
    let (byte, rest) = wanted(w);
    if b != byte {
        return Err(MessageRefusal::NotText);
    }
    match rest {
        Some(next) => go(Mode::InWord(next), brackets),
        None => go(Mode::At(Point::After), brackets),
    }
}

// A byte inside a message.
#[tactic(auto, unfolding(crate::specs::Serving::Modes::turn))]
pub fn step(place: Place, b: u8) -> Turn
    ensures { stepped result ≡ outcome_of (modes.turn (mode_of place.mode) (open_of place.brackets) b) }
{
    let brackets = place.brackets;
    match place.mode {
        Mode::At(point) => at_point(point, brackets, b),
        Mode::InString => in_string(false, brackets, b),
        Mode::InKey => in_string(true, brackets, b),
        Mode::InStringChar(c) => in_char(char_turn(c, b), false, brackets),
        Mode::InKeyChar(c) => in_char(char_turn(c, b), true, brackets),
        Mode::InNumber(n) => in_number(n, brackets, b),
        Mode::InWord(w) => in_word(w, brackets, b),
    }
}
