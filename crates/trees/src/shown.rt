// Bytes put on a page as a terminal may have them.
ghost use Rattle.std.specs.Prelude.{◌≡◌, ◌+◌, ◌*◌, ◌≤◌, ◌<◌, ◌++◌, length};
ghost use Rattle.trees.specs.Escapes.{shown_digit, shown_byte, shown_bytes, shown};
ghost use Rattle.trees.specs.Serving.Rooms.{escape_bytes, shown_room};

use lines::page::Page;
use rules::NAME_BYTES;

// Room for what is shown of bytes: the longest name, each byte escaped, and three dots.
pub const SHOWN_ROOM: usize = 4 * NAME_BYTES + 3;

#[tactic(auto, using(std::proofs::lemmas::Grind::common_steps, crate::proofs::ShownLaws::low_digit, crate::proofs::ShownLaws::high_digit))]
fn hex_digit(d: u8) -> u8
    requires { d < 16 }
    ensures { result ≡ shown_digit d }
{
    if d < 10 { b'0' + d } else { b'a' + (d - 10) }
}

#[tactic(auto, using(std::proofs::lemmas::Grind::common_steps, crate::proofs::ShownLaws::low_byte, crate::proofs::ShownLaws::high_byte, crate::proofs::ShownLaws::plain_byte))]
fn put_byte<const N: usize>(out: &mut Page<N>, b: u8)
    requires { length out.old + escape_bytes ≤ N }
    ensures puts { out.new ≡ out.old ++ shown_byte b }
    ensures upper_bound { length out.new ≤ length out.old + escape_bytes }
{
    if b < 0x20 || 0x7E < b {
        out.put(&[b'\\', b'x', hex_digit(b / 16), hex_digit(b % 16)]);
    } else {
        out.push(b);
    }
}

// Each byte as a terminal may have it.
#[tactic(auto, using(std::proofs::lemmas::Grind::common_steps, crate::proofs::ShownLaws::byte_length, crate::proofs::ShownLaws::shown_next, crate::proofs::ShownLaws::shown_none, crate::proofs::ShownLaws::each_length))]
pub fn put_each<const N: usize>(out: &mut Page<N>, bytes: &[u8])
    requires { length out.old + escape_bytes * length bytes.now ≤ N }
    ensures puts { out.new ≡ out.old ++ shown_bytes bytes.now }
    ensures upper_bound { length out.new ≤ length out.old + escape_bytes * length bytes.now }
{
    for b in bytes {
        put_byte(out, *b);
    }
}

// Bytes cut to the longest name, with dots where there is more.
#[tactic(auto, using(std::proofs::lemmas::Grind::common_steps, crate::proofs::ShownLaws::each_length, crate::proofs::ShownLaws::shown_long, crate::proofs::ShownLaws::shown_short, crate::proofs::ShownLaws::shown_length))]
pub fn put_shown<const N: usize>(out: &mut Page<N>, bytes: &[u8])
    requires { length out.old + shown_room ≤ N }
    ensures puts { out.new ≡ out.old ++ shown bytes.now }
    ensures upper_bound { length out.new ≤ length out.old + shown_room }
{
    put_each(out, &bytes[..NAME_BYTES.min(bytes.len())]);
    if NAME_BYTES < bytes.len() {
        out.put(b"...");
    }
}
