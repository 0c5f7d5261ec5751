// What a string means, decoded once into lent bytes. A string goes from its opening quote to past its closing one; any places may be asked.
ghost use Rattle.strings.specs.Strings.{grammar_of};
ghost use Rattle.strings.specs.Decoding.{Decodes};

use crate::chars::next_char;
use crate::dialects::Dialect;

// Decodes the string from a on: how many of the lent bytes are its code points. None if it has more of them, or one that is no byte: it stops at the first that has no place in the bytes.
// A walk from character to character, with which n, the place in the bytes, keeps step.
pub fn decode(s: &[u8], dialect: Dialect, a: usize, bytes: &mut [u8]) -> Option<usize>
    ensures { Decodes (grammar_of dialect) s.now a bytes.new result }
{
    if s.len() <= a {
        return None;
    }
    let mut i = a + 1;
    let mut n = 0;
    while i < s.len() {
        let Ok(c) = next_char(s, dialect, i) else {
            return Some(n);
        };
        if bytes.len() <= n || 0xFF < c.code {
            return None;
        }
        bytes[n] = c.code as u8;
        n += 1;
        i = c.end;
    }
    None
}
