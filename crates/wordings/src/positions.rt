// The line and column of a place, as editors count them.
ghost use Rattle.std.specs.Prelude.{◌≡◌, ◌+◌, ◌≤◌, ◌<◌, ◌^◌, ◌++◌, length};
ghost use Rattle.lines.specs.Lines.{before_lf};
ghost use Rattle.trees.specs.Backwards.{back};
ghost use Rattle.wordings.specs.Excerpts.{line_of, column_of, position_line};
ghost use Rattle.wordings.specs.Serving.Rooms.{position_room};

use lines::decimals::{NUMBER_ROOM, put_number};
use lines::page::Page;

// Room for two numbers and what stands around them.
pub const POSITION_ROOM: usize = 2 * NUMBER_ROOM + 16;

#[tactic(auto, using(std::proofs::lemmas::Grind::common_steps, crate::proofs::ExcerptLaws::ends_start, crate::proofs::ExcerptLaws::ends_lf, crate::proofs::ExcerptLaws::ends_other, crate::proofs::ExcerptLaws::ends_few))]
fn line_of(s: &[u8], place: usize) -> usize
    requires { (place ≤ length s.now) × (length s.now < 2 ^ 32) }
    ensures { result ≡ line_of s.now place }
{
    let mut line = 1;
    for i in (0..place).rev() {
        if s[i] == b'\n' {
            line += 1;
        }
    }
    line
}

// Where the line of a place begins.
#[tactic(auto, using(std::proofs::lemmas::Grind::common_steps, crate::proofs::ExcerptLaws::lf_start, crate::proofs::ExcerptLaws::lf_here, crate::proofs::ExcerptLaws::lf_on))]
fn line_start(s: &[u8], place: usize) -> usize
    requires { place ≤ length s.now }
    ensures { place ≡ result + before_lf (back s.now place) }
{
    for i in (0..place).rev() {
        if s[i] == b'\n' {
            return i + 1;
        }
    }
    0
}

fn column_of(s: &[u8], place: usize) -> usize
    requires { (place ≤ length s.now) × (length s.now < 2 ^ 32) }
    ensures { result ≡ column_of s.now place }
{
    place - line_start(s, place) + 1
}

#[tactic(auto, using(std::proofs::lemmas::Grind::common_steps, crate::proofs::ExcerptLaws::position_is, lines::proofs::TextLaws::number_length, crate::proofs::HeadLaws::line_length))]
pub fn put_position<const N: usize>(s: &[u8], place: usize, out: &mut Page<N>)
    requires { (place ≤ length s.now) × (length s.now < 2 ^ 32) × (length out.old + position_room ≤ N) }
    ensures puts { out.new ≡ out.old ++ position_line s.now place }
    ensures upper_bound { length out.new ≤ length out.old + position_room }
{
    out.put(b"  line ");
    put_number(out, line_of(s, place));
    out.put(b", column ");
    put_number(out, column_of(s, place));
    out.push(b'\n');
}
