// What strings mean, compared without decoding them. A string goes from its opening quote to past its closing one; any places may be asked.
ghost use Rattle.std.specs.Prelude.{◌≡◌};
ghost use Rattle.strings.specs.Strings.{grammar_of};
ghost use Rattle.strings.specs.Meanings.{CodesMean, CodesSame, MeansName, MeansSame};

use crate::bytes::{can_stand, inside, same_bytes};
use crate::chars::next_char;
use crate::dialects::Dialect;

// A walk from character to character, with which j, the place in the name, keeps step.
fn codes_mean(s: &[u8], dialect: Dialect, a: usize, name: &[u8]) -> bool
    ensures { CodesMean (grammar_of dialect) s.now a name.now result }
{
    if s.len() <= a {
        return false;
    }
    let mut i = a + 1;
    let mut j = 0;
    while i < s.len() {
        let Ok(c) = next_char(s, dialect, i) else {
            return j == name.len();
        };
        if name.len() <= j || c.code != name[j] as u32 {
            return false;
        }
        i = c.end;
        j += 1;
    }
    false
}

fn codes_same(s: &[u8], dialect: Dialect, a: usize, b: usize) -> bool
    ensures { CodesSame (grammar_of dialect) s.now a b result }
{
    if s.len() <= a || s.len() <= b {
        return false;
    }
    let mut i = a + 1;
    let mut j = b + 1;
    while i < s.len() {
        let x = next_char(s, dialect, i);
        let y = next_char(s, dialect, j);
        match (x, y) {
            (Ok(c), Ok(d)) => {
                if c.code != d.code {
                    return false;
                }
                i = c.end;
                j = d.end;
            }
            (Err(_), Err(_)) => return true,
            _ => return false,
        }
    }
    false
}

// Whether the string from a to e means the bytes `name`. `plain` says that the string's bytes are its code points.
pub fn means(s: &[u8], dialect: Dialect, a: usize, e: usize, plain: bool, name: &[u8]) -> bool
    ensures { MeansName (grammar_of dialect) s.now a e plain name.now result }
{
    if plain {
        return can_stand(s, a, e) && same_bytes(inside(s, a, e), name);
    }
    codes_mean(s, dialect, a, name)
}

// Whether the strings from a to e and from b to f mean the same.
pub fn same_meaning(
    s: &[u8],
    dialect: Dialect,
    a: usize,
    e: usize,
    plain_a: bool,
    b: usize,
    f: usize,
    plain_b: bool,
) -> bool
    ensures { MeansSame (grammar_of dialect) s.now a e plain_a b f plain_b result }
{
    if plain_a && plain_b {
        if can_stand(s, a, e) && can_stand(s, b, f) {
            return same_bytes(inside(s, a, e), inside(s, b, f));
        }
        return false;
    }
    codes_same(s, dialect, a, b)
}
