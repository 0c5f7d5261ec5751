// The ranges of the integer types.
ghost use Rattle.std.specs.Prelude.{◌≡◌, ◌∷◌, get_or};
ghost use Rattle.std.proofs.Math.Option.{none};
ghost use Rattle.rules.specs.Types.{ranges};
ghost use Rattle.builtins.specs.Ranges.{range_as};

use crate::{INT, INT8, INT16, INT32, INT64, SIZE, UINT8, UINT16, UINT32, UINT64};

// The most below 0 and the most above.
#[derive(Clone, Copy, PartialEq, Eq)]
pub struct Range {
    pub below: u64,
    pub above: u64,
}

fn spanning(below: u64, above: u64) -> Option<Range>
    ensures { result ≡ Some (record { below = below; above = above }) }
{
    Some(Range { below, above })
}

// The range of built-in b; every number is in that of one that has none.
pub fn range_of(b: usize) -> Option<Range>
    ensures { range_as result ≡ get_or (none ∷ ranges) b none }
{
    match b {
        INT => spanning(9223372036854775808, 9223372036854775807),
        INT8 => spanning(128, 127),
        INT16 => spanning(32768, 32767),
        INT32 => spanning(2147483648, 2147483647),
        INT64 => spanning(9223372036854775808, 9223372036854775807),
        UINT8 => spanning(0, 255),
        UINT16 => spanning(0, 65535),
        UINT32 => spanning(0, 4294967295),
        UINT64 => spanning(0, 18446744073709551615),
        SIZE => spanning(0, 18446744073709551615),
        _ => None,
    }
}
