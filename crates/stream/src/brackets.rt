// The open brackets: one at least, and at most as many as there are levels.
ghost use Rattle.stream.specs.Serving.States.{Nest};

use grammar::MESSAGE_LEVELS;

// Bits below the leading 1, the innermost bracket lowest, 1 for an object: a word that a caller can keep (`stands_for`), in fixed memory.
#[derive(Clone, Copy)]
pub struct Brackets {
    bits: u64,
    ghost open: { Nest bits },
}

// An outermost array; the least of two brackets; the least of as many brackets as there are levels, and one past the most of them.
const ONE_ARRAY: u64 = 2;

const TWO_OPEN: u64 = 4;

const FULL: u64 = 1 << MESSAGE_LEVELS;

const END: u64 = 2 << MESSAGE_LEVELS;

impl Brackets {
    ghost use Rattle.std.specs.Prelude.{◌≡◌, [], ◌∷◌};
    ghost use Rattle.stream.specs.Serving.Contracts.{BracketsAt, open_of, OneMore, OneLess, Innermost};

    // An outermost bracket.
    pub fn one(object: bool) -> Brackets
        ensures { open_of result ≡ object ∷ [] }
    {
        Brackets {
            bits: ONE_ARRAY + object as u64,
        }
    }

    pub fn of_bits(bits: u64) -> Option<Brackets>
        ensures { BracketsAt bits result }
    {
        if (ONE_ARRAY..END).contains(&bits) {
            Some(Brackets { bits })
        } else {
            None
        }
    }

    pub fn bits(self) -> u64
        ensures { result ≡ self.bits }
    {
        self.bits
    }

    // With one more open, unless all levels are.
    pub fn open(self, object: bool) -> Option<Brackets>
        ensures { OneMore object self result }
    {
        if self.bits < FULL {
            Some(Brackets {
                bits: 2 * self.bits + object as u64,
            })
        } else {
            None
        }
    }

    // With the innermost closed, unless it is the last.
    pub fn close(self) -> Option<Brackets>
        ensures { OneLess self result }
    {
        if self.bits < TWO_OPEN {
            None
        } else {
            Some(Brackets {
                bits: self.bits / 2,
            })
        }
    }

    // Whether the innermost is an object's.
    pub fn in_object(self) -> bool
        ensures { Innermost self result }
    {
        self.bits % 2 == 1
    }
}
