// Bytes: parts of a slice, and whether two parts are the same.
ghost use Rattle.std.specs.Prelude.{◌≡◌, ◌+◌, ◌≤◌, length, take, drop};
ghost use Rattle.grammar.specs.Notation.{same};
ghost use Rattle.strings.specs.Bytes.{same_parts};
ghost use Rattle.strings.specs.Meanings.{can_stand, inside};

// Bytes that are compared at once.
const BLOCK: usize = 8;

// The n bytes from a on, or those of them that there are.
pub fn part_of(s: &[u8], a: usize, n: usize) -> &[u8]
    ensures { result.now ≡ take n (drop a s.now) }
{
    let rest = &s[a.min(s.len())..];
    &rest[..n.min(rest.len())]
}

// Whether a string can stand from a to e: its two quotes, and all of it in the text.
pub fn can_stand(s: &[u8], a: usize, e: usize) -> bool
    ensures { result ≡ can_stand s.now a e }
{
    e <= s.len() && 2 <= e.saturating_sub(a)
}

// The bytes of the string from a to e, its quotes left out.
pub fn inside(s: &[u8], a: usize, e: usize) -> &[u8]
    ensures { result.now ≡ inside s.now a e }
{
    part_of(
        s,
        a.saturating_add(1),
        e.saturating_sub(a).saturating_sub(2),
    )
}

// Whether two slices of one length are equal, block by block up to the first that differs.
fn same_blocks(x: &[u8], y: &[u8]) -> bool
    requires { length x.now ≡ length y.now }
    ensures { result ≡ same x.now y.now }
{
    let (x_blocks, x_rest) = x.as_chunks::<BLOCK>();
    let (y_blocks, y_rest) = y.as_chunks::<BLOCK>();
    x_blocks == y_blocks && x_rest == y_rest
}

// Whether two slices are equal. Their last bytes are asked first, in which names differ most.
pub fn same_bytes(x: &[u8], y: &[u8]) -> bool
    ensures { result ≡ same x.now y.now }
{
    if x.len() != y.len() {
        return false;
    }
    if x.last() != y.last() {
        return false;
    }
    same_blocks(x, y)
}

// Whether n bytes of `s` from i on are those of `t` from j on.
pub fn same_parts(s: &[u8], i: usize, t: &[u8], j: usize, n: usize) -> bool
    requires { (i + n ≤ length s.now) × (j + n ≤ length t.now) }
    ensures { result ≡ same_parts s.now i t.now j n }
{
    same_bytes(&s[i..i + n], &t[j..j + n])
}
