// The line of a text around a place, cut to fit a terminal, and a caret under the byte there.
ghost use Rattle.std.specs.Prelude.{◌≡◌, ◌++◌, ◌+◌, ◌-◌, ◌≤◌, length, drop};
ghost use Rattle.trees.specs.Backwards.{back};
ghost use Rattle.wordings.specs.Excerpts.{side_columns, columns_of, shuts, cut_from, cut_to, goes_on, dots, lead_text, rest_text, excerpt};
ghost use Rattle.wordings.specs.Serving.Rooms.{lead_room, rest_room, excerpt_room};

use lines::page::Page;
use trees::shown::put_each;

// Columns for the bytes of the line before the place, and for those from it on.
const SIDE_COLUMNS: usize = 36;

// Columns of an escaped byte.
const ESCAPE_COLUMNS: usize = 4;

// Room for the bytes on a side, each escaped, with an indent and dots before them, or dots and LF after them; for the caret
// as much as for what stands above it, and LF.
const SIDE_ROOM: usize = ESCAPE_COLUMNS * SIDE_COLUMNS;

const LEAD_ROOM: usize = 5 + SIDE_ROOM;

const REST_ROOM: usize = SIDE_ROOM + 3;

pub const EXCERPT_ROOM: usize = 2 * LEAD_ROOM + REST_ROOM + 3;

#[tactic(auto, using(std::proofs::lemmas::Grind::common_steps, crate::proofs::ExcerptLaws::low_columns, crate::proofs::ExcerptLaws::high_columns, crate::proofs::ExcerptLaws::one_column))]
fn columns_of(b: u8) -> usize
    ensures { result ≡ columns_of b }
{
    if b < 0x20 || 0x7E < b {
        ESCAPE_COLUMNS
    } else {
        1
    }
}

// Whether a byte ends the line, or takes more columns than are left.
#[tactic(auto, using(std::proofs::lemmas::Grind::common_steps, crate::proofs::ExcerptLaws::shuts_end, crate::proofs::ExcerptLaws::shuts_by))]
fn shuts_line(columns: usize, b: u8) -> bool
    ensures { result ≡ shuts columns b }
{
    b == b'\n' || columns < columns_of(b)
}

#[tactic(auto, using(std::proofs::lemmas::Grind::common_steps, crate::proofs::ExcerptLaws::from_stop, crate::proofs::ExcerptLaws::from_on, crate::proofs::ExcerptLaws::from_start, crate::proofs::ExcerptLaws::not_shut, crate::proofs::ExcerptLaws::from_near))]
fn cut_from(s: &[u8], place: usize) -> usize
    requires { place ≤ length s.now }
    ensures value { result ≡ cut_from side_columns s.now place }
    ensures upper_bound { (result ≤ place) × (place ≤ result + side_columns) }
{
    let mut columns = SIDE_COLUMNS;
    for i in (0..place).rev() {
        if shuts_line(columns, s[i]) {
            return i + 1;
        }
        columns -= columns_of(s[i]);
    }
    0
}

#[tactic(auto, using(std::proofs::lemmas::Grind::common_steps, crate::proofs::ExcerptLaws::to_stop, crate::proofs::ExcerptLaws::to_on, crate::proofs::ExcerptLaws::to_end, crate::proofs::ExcerptLaws::not_shut, crate::proofs::ExcerptLaws::to_near))]
fn cut_to(s: &[u8], place: usize) -> usize
    requires { place ≤ length s.now }
    ensures value { result ≡ cut_to side_columns place (drop place s.now) }
    ensures lower_bound { (place ≤ result) × (result ≤ place + side_columns) × (result ≤ length s.now) }
{
    let mut columns = SIDE_COLUMNS;
    for i in place..s.len() {
        if shuts_line(columns, s[i]) {
            return i;
        }
        columns -= columns_of(s[i]);
    }
    s.len()
}

#[tactic(auto, using(std::proofs::lemmas::Grind::common_steps, crate::proofs::ExcerptLaws::goes_start, crate::proofs::ExcerptLaws::goes_before))]
fn goes_on_before(s: &[u8], i: usize) -> bool
    requires { i ≤ length s.now }
    ensures { result ≡ goes_on (back s.now i) }
{
    0 < i && s[i - 1] != b'\n'
}

#[tactic(auto, using(std::proofs::lemmas::Grind::common_steps, crate::proofs::ExcerptLaws::goes_end, crate::proofs::ExcerptLaws::goes_from))]
fn goes_on_from(s: &[u8], i: usize) -> bool
    ensures { result ≡ goes_on (drop i s.now) }
{
    i < s.len() && s[i] != b'\n'
}

#[tactic(auto, using(std::proofs::lemmas::Grind::common_steps, crate::proofs::ExcerptLaws::dots_some, crate::proofs::ExcerptLaws::dots_none))]
fn put_dots<const N: usize>(out: &mut Page<N>, more: bool)
    requires { length out.old + 3 ≤ N }
    ensures puts { out.new ≡ out.old ++ dots more }
    ensures upper_bound { length out.new ≤ length out.old + 3 }
{
    if more {
        out.put(b"...");
    }
}

#[tactic(auto, using(std::proofs::lemmas::Grind::common_steps, crate::proofs::ExcerptLaws::lead_is, crate::proofs::ExcerptLaws::dots_length, crate::proofs::ExcerptLaws::from_near, crate::proofs::ExcerptLaws::lead_length))]
fn put_lead<const N: usize>(s: &[u8], place: usize, out: &mut Page<N>)
    requires { (place ≤ length s.now) × (length out.old + lead_room ≤ N) }
    ensures puts { out.new ≡ out.old ++ lead_text s.now place }
    ensures upper_bound { length out.new ≤ length out.old + lead_room }
{
    let from = cut_from(s, place);
    out.put(b"  ");
    put_dots(out, goes_on_before(s, from));
    put_each(out, &s[from..place]);
}

#[tactic(auto, using(std::proofs::lemmas::Grind::common_steps, crate::proofs::ExcerptLaws::rest_is, crate::proofs::ExcerptLaws::dots_length, crate::proofs::ExcerptLaws::to_near, trees::proofs::ShownLaws::each_length, crate::proofs::ExcerptLaws::rest_length))]
fn put_rest<const N: usize>(s: &[u8], place: usize, out: &mut Page<N>)
    requires { (place ≤ length s.now) × (length out.old + rest_room ≤ N) }
    ensures puts { out.new ≡ out.old ++ rest_text s.now place }
    ensures upper_bound { length out.new ≤ length out.old + rest_room }
{
    let to = cut_to(s, place);
    put_each(out, &s[place..to]);
    put_dots(out, goes_on_from(s, to));
}

// The line around the place and the caret under it.
#[tactic(auto, using(std::proofs::lemmas::Grind::common_steps, crate::proofs::ExcerptLaws::excerpt_is, crate::proofs::ExcerptLaws::lead_length, crate::proofs::ExcerptLaws::rest_length))]
pub fn put_excerpt<const N: usize>(s: &[u8], place: usize, out: &mut Page<N>)
    requires { (place ≤ length s.now) × (length out.old + excerpt_room ≤ N) }
    ensures { out.new ≡ out.old ++ excerpt s.now place }
{
    let begin = out.len();
    put_lead(s, place, out);
    let caret = out.len() - begin;
    put_rest(s, place, out);
    out.push(b'\n');
    out.put_spaces(caret);
    out.put(b"^\n");
}
