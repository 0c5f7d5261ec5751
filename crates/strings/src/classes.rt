// The classes of bytes: one table, lent to every reader. A constant array is built anew at each use, so a caller takes it once.
ghost use Rattle.std.specs.Prelude.{◌≡◌};
ghost use Rattle.grammar.specs.Lexis.{blank};
ghost use Rattle.grammar.specs.Notation.{digit};
ghost use Rattle.strings.specs.Classes.{class_of, tabulate};

use crate::class::Class;
use crate::class::Class::{Backslash, Break, Control, Digit, High, Letter, Other, Quote, Space};

// The class of each byte, from 0 to 255.
const CLASSES: [Class; 256] = [
    Control, Control, Control, Control, Control, Control, Control, Control, Control, Break, Break,
    Control, Control, Break, Control, Control, Control, Control, Control, Control, Control,
    Control, Control, Control, Control, Control, Control, Control, Control, Control, Control,
    Control, Space, Other, Quote, Other, Other, Other, Other, Other, Other, Other, Other, Other,
    Other, Letter, Other, Other, Digit, Digit, Digit, Digit, Digit, Digit, Digit, Digit, Digit,
    Digit, Other, Other, Other, Other, Other, Other, Other, Letter, Letter, Letter, Letter, Letter,
    Letter, Letter, Letter, Letter, Letter, Letter, Letter, Letter, Letter, Letter, Letter, Letter,
    Letter, Letter, Letter, Letter, Letter, Letter, Letter, Letter, Letter, Other, Backslash,
    Other, Other, Letter, Other, Letter, Letter, Letter, Letter, Letter, Letter, Letter, Letter,
    Letter, Letter, Letter, Letter, Letter, Letter, Letter, Letter, Letter, Letter, Letter, Letter,
    Letter, Letter, Letter, Letter, Letter, Letter, Other, Other, Other, Other, Other, High, High,
    High, High, High, High, High, High, High, High, High, High, High, High, High, High, High, High,
    High, High, High, High, High, High, High, High, High, High, High, High, High, High, High, High,
    High, High, High, High, High, High, High, High, High, High, High, High, High, High, High, High,
    High, High, High, High, High, High, High, High, High, High, High, High, High, High, High, High,
    High, High, High, High, High, High, High, High, High, High, High, High, High, High, High, High,
    High, High, High, High, High, High, High, High, High, High, High, High, High, High, High, High,
    High, High, High, High, High, High, High, High, High, High, High, High, High, High, High, High,
    High, High, High, High, High, High, High, High, High, High, High, High, High, High,
];

// A table of the class of each byte.
#[derive(Drop)]
pub struct Classes {
    table: [Class; 256],
    ghost known: { table ≡ tabulate class_of 0 256 },
}

impl Classes {
    pub fn new() -> Classes {
        Classes { table: CLASSES }
    }

    pub fn class_of(&self, b: u8) -> Class
        ensures { result ≡ class_of b }
    {
        self.table[b as usize]
    }

    pub fn is_blank(&self, b: u8) -> bool
        ensures { result ≡ blank b }
    {
        self.class_of(b).is_blank()
    }

    pub fn is_digit(&self, b: u8) -> bool
        ensures { result ≡ digit b }
    {
        self.class_of(b).is_digit()
    }
}
