// Hashes of what strings mean: equal meanings have equal hashes. A string goes from its opening quote to past its closing one; any places may be asked.
ghost use Rattle.std.specs.Prelude.{◌≡◌};
ghost use Rattle.strings.specs.Strings.{grammar_of};
ghost use Rattle.strings.specs.Hashes.{hash_more, hash_of, CodesHash, MeansHash};

use crate::bytes::{can_stand, inside};
use crate::chars::next_char;
use crate::dialects::Dialect;

// A hash with one more code point. Places count, but it is no secret: who chooses the strings can make hashes equal.
pub fn mix(hash: u32, c: u32) -> u32
    ensures { result ≡ hash_more hash c }
{
    hash % 0x4000000 * 61 + c % 0x200000
}

fn bytes_hash(bytes: &[u8]) -> u32
    ensures { result ≡ hash_of bytes.now }
{
    let mut hash = 0;
    for b in bytes {
        hash = mix(hash, *b as u32);
    }
    hash
}

fn codes_hash(s: &[u8], dialect: Dialect, a: usize) -> u32
    ensures { CodesHash (grammar_of dialect) s.now a result }
{
    if s.len() <= a {
        return 0;
    }
    let mut hash = 0;
    let mut i = a + 1;
    while i < s.len() {
        let Ok(c) = next_char(s, dialect, i) else {
            return hash;
        };
        hash = mix(hash, c.code);
        i = c.end;
    }
    hash
}

// The hash of what the string from a to e means. `plain` says that the string's bytes are its code points.
pub fn hash_of(s: &[u8], dialect: Dialect, a: usize, e: usize, plain: bool) -> u32
    ensures { MeansHash (grammar_of dialect) s.now a e plain result }
{
    if plain {
        if can_stand(s, a, e) {
            return bytes_hash(inside(s, a, e));
        }
        return 0;
    }
    codes_hash(s, dialect, a)
}
