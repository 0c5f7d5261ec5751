// The bytes of a character in a string, one at a time. After each the character is complete or more bytes are wanted, in a mode; or the byte does not fit.
ghost use Rattle.std.specs.Prelude.{cond};
ghost use Rattle.grammar.specs.MessageText.{hex_digit};
ghost use Rattle.stream.specs.Serving.Modes as modes;
ghost use Rattle.stream.specs.Serving.Contracts.{char_of, turn_at, HexDigit, CharGoes};

use crate::mode::CharMode;
use rules::MessageRefusal;

pub type CharTurn = Result<Option<CharMode>, MessageRefusal>;

fn if_fits(fits: bool, next: Option<CharMode>) -> CharTurn
    ensures { CharGoes result (cond fits (turn_at next) modes.CharTurn.bad) }
{
    if fits {
        Ok(next)
    } else {
        Err(MessageRefusal::NotText)
    }
}

// What a hexadecimal digit stands for.
#[tactic(auto, unfolding(grammar::specs::MessageText::hex_digit))]
fn hex_digit(b: u8) -> Result<u8, MessageRefusal>
    ensures { HexDigit b result }
{
    match b {
        b'0'..=b'9' => Ok(b - b'0'),
        b'A'..=b'F' => Ok(b - b'A' + 10),
        b'a'..=b'f' => Ok(b - b'a' + 10),
        _ => Err(MessageRefusal::NotText),
    }
}

// Any hexadecimal digit.
fn digit_then(b: u8, next: Option<CharMode>) -> CharTurn
    ensures { CharGoes result (modes.with_digit (hex_digit b) (λ _. turn_at next)) }
{
    hex_digit(b)?;
    Ok(next)
}

// A byte of a string, other than its quotation mark, where a character starts.
#[tactic(auto, unfolding(crate::specs::Serving::Modes::begin_char))]
pub fn begin_char(b: u8) -> CharTurn
    ensures { CharGoes result (modes.begin_char b) }
{
    let next = match b {
        b'\\' => CharMode::Escape,
        0x20..=0x7F => return Ok(None),
        0xC2..=0xDF => CharMode::One,
        0xE0 => CharMode::TwoE0,
        0xED => CharMode::TwoED,
        0xE1..=0xEF => CharMode::Two,
        0xF0 => CharMode::ThreeF0,
        0xF1..=0xF3 => CharMode::Three,
        0xF4 => CharMode::ThreeF4,
        _ => return Err(MessageRefusal::NotText),
    };
    Ok(Some(next))
}

// The byte after a backslash.
#[tactic(auto, unfolding(crate::specs::Serving::Modes::char_turn, grammar::specs::Serving::Machine::Message::escape_of))]
fn escape_turn(b: u8) -> CharTurn
    ensures { CharGoes result (modes.char_turn modes.CharMode.escape b) }
{
    match b {
        b'u' => Ok(Some(CharMode::Hex0)),
        b'"' | b'\\' | b'/' | b'b' | b'f' | b'n' | b'r' | b't' => Ok(None),
        _ => Err(MessageRefusal::NotText),
    }
}

// A byte inside a character. A low surrogate without its high one is refused at its second digit.
#[tactic(auto, unfolding(crate::specs::Serving::Modes::char_turn))]
pub fn char_turn(c: CharMode, b: u8) -> CharTurn
    ensures { CharGoes result (modes.char_turn (char_of c) b) }
{
    match c {
        CharMode::Escape => escape_turn(b),
        CharMode::LowBackslash => if_fits(b == b'\\', Some(CharMode::LowU)),
        CharMode::LowU => if_fits(b == b'u', Some(CharMode::Low0)),
        CharMode::Hex0 => {
            let after_d = hex_digit(b)? == 0xD;
            Ok(Some(if after_d {
                CharMode::Hex1AfterD
            } else {
                CharMode::Hex1
            }))
        }
        CharMode::Hex1 => digit_then(b, Some(CharMode::Hex2)),
        CharMode::Hex1AfterD => {
            let d = hex_digit(b)?;
            if_fits(
                d < 0xC,
                Some(if d < 8 {
                    CharMode::Hex2
                } else {
                    CharMode::Hex2High
                }),
            )
        }
        CharMode::Hex2 => digit_then(b, Some(CharMode::Hex3)),
        CharMode::Hex2High => digit_then(b, Some(CharMode::Hex3High)),
        CharMode::Hex3 | CharMode::Low3 => digit_then(b, None),
        CharMode::Hex3High => digit_then(b, Some(CharMode::LowBackslash)),
        CharMode::Low0 => if_fits(hex_digit(b)? == 0xD, Some(CharMode::Low1)),
        CharMode::Low1 => if_fits(0xC <= hex_digit(b)?, Some(CharMode::Low2)),
        CharMode::Low2 => digit_then(b, Some(CharMode::Low3)),
        CharMode::One => if_fits((0x80..=0xBF).contains(&b), None),
        CharMode::Two => if_fits((0x80..=0xBF).contains(&b), Some(CharMode::One)),
        CharMode::TwoE0 => if_fits((0xA0..=0xBF).contains(&b), Some(CharMode::One)),
        CharMode::TwoED => if_fits((0x80..=0x9F).contains(&b), Some(CharMode::One)),
        CharMode::Three => if_fits((0x80..=0xBF).contains(&b), Some(CharMode::Two)),
        CharMode::ThreeF0 => if_fits((0x90..=0xBF).contains(&b), Some(CharMode::Two)),
        CharMode::ThreeF4 => if_fits((0x80..=0x8F).contains(&b), Some(CharMode::Two)),
    }
}
