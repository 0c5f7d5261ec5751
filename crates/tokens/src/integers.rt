// The exact value of an integer token of any length, against a range.
ghost use Rattle.std.specs.Prelude.{◌≡◌, cond, ◌-◌, leb, take, drop};
ghost use Rattle.grammar.specs.Integers.{negative, unsigned_part, decimal};

use strings::bytes::part_of;

// What a byte counts as a digit; one below the digits counts 0.
fn digit_value(b: u8) -> u64
    ensures { result ≡ b - 48 }
{
    b.saturating_sub(b'0') as u64
}

// Whether the digits mean a number up to `most`. It is known as soon as the value so far is above.
fn at_most(digits: &[u8], most: u64) -> bool
    ensures { result ≡ leb (decimal 0 digits.now) most }
{
    let tenth = most / 10;
    let mut value = 0u64;
    for b in digits {
        if tenth < value {
            return false;
        }
        let d = digit_value(*b);
        if most - value * 10 < d {
            return false;
        }
        value = value * 10 + d;
    }
    true
}

// Whether the integer from a to e lies from -low to high.
pub fn in_range(s: &[u8], a: usize, e: usize, low: u64, high: u64) -> bool
    ensures { result ≡ leb (decimal 0 (unsigned_part (take (e - a) (drop a s.now)))) (cond (negative (take (e - a) (drop a s.now))) low high) }
{
    let token = part_of(s, a, e.saturating_sub(a));
    match token {
        [b'-', digits @ ..] => at_most(digits, low),
        _ => at_most(token, high),
    }
}
