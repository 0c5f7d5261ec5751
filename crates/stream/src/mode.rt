// What is read next inside a message, and the number by which a caller keeps it between calls (specs/Serving/States).
ghost use Rattle.std.specs.Prelude.{◌≤◌, ◌<◌};
ghost use Rattle.stream.specs.Serving.States.{first_string, first_number, first_word, first_char};
ghost use Rattle.stream.specs.Serving.Contracts.{CharAt, ModeAt, NumberOf};

// Where a blank may stand: at a value; at an element or the end of its array; after a value; at a key or the end of its object; at a key; at its colon.
#[derive(Clone, Copy)]
pub enum Point {
    Value = 2,
    Element = 3,
    After = 4,
    FirstKey = 5,
    Key = 6,
    Colon = 7,
}

// So much of a number is read.
#[derive(Clone, Copy)]
pub enum NumberMode {
    AfterMinus = 10,
    AfterZero = 11,
    InInteger = 12,
    AfterPoint = 13,
    InFraction = 14,
    AfterE = 15,
    AfterSign = 16,
    InExponent = 17,
}

// What is wanted of null, true and false.
#[derive(Clone, Copy)]
pub enum Word {
    Ull = 18,
    Ll = 19,
    Rue = 20,
    Ue = 21,
    Alse = 22,
    Lse = 23,
    Se = 24,
    L = 25,
    E = 26,
}

// Inside a character. After a backslash; after a high surrogate, at the backslash and the u of its low one. At a digit of `\u`: the first; the second, after D or not; the last two, of a high
// surrogate or not; those of a low one. In UTF-8, so many bytes are wanted; after some lead bytes the next one is narrowed.
#[derive(Clone, Copy)]
pub enum CharMode {
    Escape,
    LowBackslash,
    LowU,
    Hex0,
    Hex1,
    Hex1AfterD,
    Hex2,
    Hex2High,
    Hex3,
    Hex3High,
    Low0,
    Low1,
    Low2,
    Low3,
    One,
    Two,
    TwoE0,
    TwoED,
    Three,
    ThreeF0,
    ThreeF4,
}

// A blank or what stands at a point; the next character of a string, or of a key; the rest of a character of either; that of a number; that of a word.
#[derive(Clone, Copy)]
pub enum Mode {
    At(Point),
    InString,
    InKey,
    InStringChar(CharMode),
    InKeyChar(CharMode),
    InNumber(NumberMode),
    InWord(Word),
}

// The numbers of a string and of a key, and those from which numbers, words and the characters of either count.
const IN_STRING: u64 = 8;

const IN_KEY: u64 = 9;

const NUMBERS: u64 = 10;

const WORDS: u64 = 18;

const STRING_CHARS: u64 = 27;

const KEY_CHARS: u64 = 48;

#[tactic(auto, unfolding(crate::specs::Serving::States::char_at))]
fn char_numbered(n: u64) -> Option<CharMode>
    ensures { CharAt n result }
{
    let c = match n {
        0 => CharMode::Escape,
        1 => CharMode::LowBackslash,
        2 => CharMode::LowU,
        3 => CharMode::Hex0,
        4 => CharMode::Hex1,
        5 => CharMode::Hex1AfterD,
        6 => CharMode::Hex2,
        7 => CharMode::Hex2High,
        8 => CharMode::Hex3,
        9 => CharMode::Hex3High,
        10 => CharMode::Low0,
        11 => CharMode::Low1,
        12 => CharMode::Low2,
        13 => CharMode::Low3,
        14 => CharMode::One,
        15 => CharMode::Two,
        16 => CharMode::TwoE0,
        17 => CharMode::TwoED,
        18 => CharMode::Three,
        19 => CharMode::ThreeF0,
        20 => CharMode::ThreeF4,
        _ => return None,
    };
    Some(c)
}

// The mode of that number at a point, in a number or in a word. Each is a function of its own, since one match on all numbers becomes a jump that is seldom foreseen.
#[tactic(auto, unfolding(crate::specs::Serving::States::mode_at))]
fn point_numbered(n: u64) -> Option<Mode>
    requires { n < first_string }
    ensures { ModeAt n result }
{
    let point = match n {
        2 => Point::Value,
        3 => Point::Element,
        4 => Point::After,
        5 => Point::FirstKey,
        6 => Point::Key,
        7 => Point::Colon,
        _ => return None,
    };
    Some(Mode::At(point))
}

#[tactic(auto, unfolding(crate::specs::Serving::States::mode_at))]
fn number_numbered(n: u64) -> Option<Mode>
    requires { (first_number ≤ n) × (n < first_word) }
    ensures { ModeAt n result }
{
    let number = match n {
        10 => NumberMode::AfterMinus,
        11 => NumberMode::AfterZero,
        12 => NumberMode::InInteger,
        13 => NumberMode::AfterPoint,
        14 => NumberMode::InFraction,
        15 => NumberMode::AfterE,
        16 => NumberMode::AfterSign,
        17 => NumberMode::InExponent,
        _ => return None,
    };
    Some(Mode::InNumber(number))
}

#[tactic(auto, unfolding(crate::specs::Serving::States::mode_at))]
fn word_numbered(n: u64) -> Option<Mode>
    requires { (first_word ≤ n) × (n < first_char) }
    ensures { ModeAt n result }
{
    let word = match n {
        18 => Word::Ull,
        19 => Word::Ll,
        20 => Word::Rue,
        21 => Word::Ue,
        22 => Word::Alse,
        23 => Word::Lse,
        24 => Word::Se,
        25 => Word::L,
        26 => Word::E,
        _ => return None,
    };
    Some(Mode::InWord(word))
}

impl Mode {
    #[tactic(auto, unfolding(crate::specs::Serving::States::mode_at))]
    pub fn number(self) -> u64
        ensures { NumberOf self result }
    {
        match self {
            Mode::At(point) => point as u64,
            Mode::InString => IN_STRING,
            Mode::InKey => IN_KEY,
            Mode::InStringChar(c) => STRING_CHARS + c as u64,
            Mode::InKeyChar(c) => KEY_CHARS + c as u64,
            Mode::InNumber(n) => n as u64,
            Mode::InWord(w) => w as u64,
        }
    }

    #[tactic(auto, unfolding(crate::specs::Serving::States::mode_at))]
    pub fn numbered(n: u64) -> Option<Mode>
        ensures { ModeAt n result }
    {
        match n {
            0..IN_STRING => point_numbered(n),
            IN_STRING => Some(Mode::InString),
            IN_KEY => Some(Mode::InKey),
            NUMBERS..WORDS => number_numbered(n),
            WORDS..STRING_CHARS => word_numbered(n),
            STRING_CHARS..KEY_CHARS => Some(Mode::InStringChar(char_numbered(n - STRING_CHARS)?)),
            KEY_CHARS.. => Some(Mode::InKeyChar(char_numbered(n - KEY_CHARS)?)),
        }
    }
}
