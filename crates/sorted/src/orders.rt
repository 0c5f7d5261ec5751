// An order of bytes by what they stand for: by the first place where that differs, a list before what goes on after it.
ghost use Rattle.std.specs.Prelude.{◌≡◌};
ghost use Rattle.rules.specs.Names.{c_byte};
ghost use Rattle.sorted.specs.Orders.{order, stands_for};

use std::cmp::Ordering;

// What bytes stand for: themselves, or a name in C.
#[derive(Clone, Copy)]
pub enum Sense {
    Bytes,
    NameInC,
}

// The byte that a byte of a name becomes in C.
pub fn c_byte(b: u8) -> u8
    ensures { result ≡ c_byte b }
{
    if b == b'-' { b'_' } else { b }
}

pub fn order_of(sense: Sense, x: &[u8], y: &[u8]) -> Ordering
    ensures { result ≡ order (stands_for sense x.now) (stands_for sense y.now) }
{
    match sense {
        Sense::Bytes => x.cmp(&y),
        Sense::NameInC => x
            .iter()
            .map(|b| c_byte(*b))
            .cmp(y.iter().map(|b| c_byte(*b))),
    }
}
