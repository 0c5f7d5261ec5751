// The classes of bytes: entry by entry of the table in classes, rule by rule in specs/Classes.
ghost use Rattle.std.specs.Prelude.{◌≡◌};
ghost use Rattle.strings.specs.Classes.{plain_class, blank_class, digit_class, named_class};

#[derive(Clone, Copy, PartialEq, Eq)]
pub enum Class {
    // Any byte of ASCII that is of no other class. Up to spaces the classes are plain, so that one comparison tells.
    Other,
    // A letter, - or _.
    Letter,
    Digit,
    Space,
    // A tab, LF or CR.
    Break,
    Control,
    // Above ASCII.
    High,
    // The quotation mark.
    Quote,
    Backslash,
}

impl Class {
    // Whether bytes of this class are plain in a message string: each is its own code point.
    pub fn is_plain(self) -> bool
        ensures { result ≡ plain_class self }
    {
        match self {
            Class::Space => true,
            Class::Digit => true,
            Class::Letter => true,
            Class::Other => true,
            _ => false,
        }
    }

    // Whether bytes of this class are blanks.
    pub fn is_blank(self) -> bool
        ensures { result ≡ blank_class self }
    {
        match self {
            Class::Break => true,
            Class::Space => true,
            _ => false,
        }
    }

    // Whether bytes of this class may stand in names.
    pub fn is_named(self) -> bool
        ensures { result ≡ named_class self }
    {
        match self {
            Class::Digit => true,
            Class::Letter => true,
            _ => false,
        }
    }

    // Whether bytes of this class are digits.
    pub fn is_digit(self) -> bool
        ensures { result ≡ digit_class self }
    {
        match self {
            Class::Digit => true,
            _ => false,
        }
    }
}
