// Numbers as decimal text, put on a page.
ghost use Rattle.std.specs.Prelude.{◌≡◌, ◌+◌, ◌*◌, ◌≤◌, ◌<◌, [], ◌∷◌, ◌++◌, length, drop};
ghost use Rattle.lines.specs.Text.{decimal_text, spaced_text, numbers_text, line_text};
ghost use Rattle.lines.specs.Serving.Rooms.{number_room, word_room};

use crate::page::Page;

// A machine number has at most 20 digits and a word at most 10; each has room with a byte before or after it.
const NUMBER_DIGITS: usize = 20;

pub const NUMBER_ROOM: usize = NUMBER_DIGITS + 1;

pub const WORD_ROOM: usize = 10 + 1;

// Writes the digits of a number to the front of a room: how many there are.
#[tactic(auto, using(std::proofs::lemmas::Grind::common_steps, crate::proofs::TextLaws::decimal_one, crate::proofs::TextLaws::decimal_more))]
pub fn write_digits(room: &mut [u8], n: usize) -> usize
    requires { length (decimal_text n) ≤ length room.old }
    ensures text { room.new ≡ decimal_text n ++ drop (length (decimal_text n)) room.old }
    ensures count { result ≡ length (decimal_text n) }
{
    if n < 10 {
        room[0] = b'0' + n as u8;
        return 1;
    }
    let p = write_digits(room, n / 10);
    room[p] = b'0' + (n % 10) as u8;
    p + 1
}

pub fn put_number<const N: usize>(out: &mut Page<N>, n: usize)
    requires { length out.old + length (decimal_text n) ≤ N }
    ensures { out.new ≡ out.old ++ decimal_text n }
{
    out.put_digits(n);
}

// A space, then the number.
#[tactic(auto, using(std::proofs::lemmas::Grind::common_steps, crate::proofs::TextLaws::spaced_one))]
fn put_spaced<const N: usize>(out: &mut Page<N>, n: usize)
    requires { length out.old + 1 + length (decimal_text n) ≤ N }
    ensures { out.new ≡ out.old ++ spaced_text (n ∷ []) }
{
    out.push(b' ');
    put_number(out, n);
}

// Each word after a space.
#[tactic(auto, using(std::proofs::lemmas::Grind::common_steps, crate::proofs::TextLaws::word_length, crate::proofs::TextLaws::spaced_one, crate::proofs::TextLaws::spaced_next, crate::proofs::TextLaws::spaced_none))]
fn put_words<const N: usize>(out: &mut Page<N>, words: &[u32])
    requires { length out.old + word_room * length words.now ≤ N }
    ensures puts { out.new ≡ out.old ++ spaced_text words.now }
    ensures upper_bound { length out.new ≤ length out.old + word_room * length words.now }
{
    for word in words {
        put_spaced(out, *word as usize);
    }
}

// Three numbers, with room left for a byte after them.
#[tactic(auto, using(std::proofs::lemmas::Grind::common_steps, crate::proofs::TextLaws::three_are, crate::proofs::TextLaws::spaced_one, crate::proofs::TextLaws::number_length))]
fn put_three<const N: usize>(out: &mut Page<N>, a: usize, b: usize, c: usize)
    requires { length out.old + 3 * number_room ≤ N }
    ensures puts { out.new ≡ out.old ++ numbers_text a (b ∷ c ∷ []) }
    ensures upper_bound { length out.new < length out.old + 3 * number_room }
{
    put_number(out, a);
    put_spaced(out, b);
    put_spaced(out, c);
}

// A line of three numbers.
#[tactic(auto, using(std::proofs::lemmas::Grind::common_steps, crate::proofs::TextLaws::line_is, crate::proofs::TextLaws::three_are, crate::proofs::TextLaws::number_length))]
pub fn put_triple<const N: usize>(out: &mut Page<N>, a: usize, b: usize, c: usize)
    requires { length out.old + 3 * number_room ≤ N }
    ensures { out.new ≡ out.old ++ line_text a (b ∷ c ∷ []) }
{
    put_three(out, a, b, c);
    out.push(b'\n');
}

// A line of four numbers and words.
#[tactic(auto, using(std::proofs::lemmas::Grind::common_steps, crate::proofs::TextLaws::four_are, crate::proofs::TextLaws::spaced_one, crate::proofs::TextLaws::number_length, crate::proofs::TextLaws::three_are, crate::proofs::TextLaws::line_is))]
pub fn put_line<const N: usize>(
    out: &mut Page<N>,
    a: usize,
    b: usize,
    c: usize,
    d: usize,
    words: &[u32],
)
    requires { length out.old + 4 * number_room + word_room * length words.now ≤ N }
    ensures { out.new ≡ out.old ++ line_text a (b ∷ c ∷ d ∷ words.now) }
{
    put_three(out, a, b, c);
    put_spaced(out, d);
    put_words(out, words);
    out.push(b'\n');
}
