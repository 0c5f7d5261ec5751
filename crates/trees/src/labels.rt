// What a record is called. A key is looked for backwards from its value.
ghost use Rattle.std.specs.Prelude.{◌≡◌, ◌+◌, ◌-◌, ◌≤◌, ◌<◌, [], ◌++◌, length, take, drop, MatchOption};
ghost use Rattle.grammar.specs.Lexis.{blank};
ghost use Rattle.walker.specs.Seeing.{seen_at};
ghost use Rattle.trees.specs.Backwards.{back, before};
ghost use Rattle.trees.specs.Serving.Rooms.{shown_room};
ghost use Rattle.trees.specs.Labelling.{skip_blanks, even_slashes, quote_first, key_back, behind_byte, key_before, key_text, alternate_ref, of_alternate, label_text};
ghost use Rattle.trees.specs.Serving.Found.{back_at, PlaceIn};

use crate::shown::put_shown;
use crate::tree::Tree;
use builtins::FIRST_ROW;
use lines::page::Page;
use rows::rows::word;
use rules::{kind, row};
use walker::records::record_at;

#[tactic(auto, unfolding(grammar::specs::Lexis::blank))]
fn is_blank(b: u8) -> bool
    ensures { result ≡ blank b }
{
    matches!(b, b' ' | b'\t' | b'\n' | b'\r')
}

// The place of the last byte before `end` that is no blank.
#[tactic(auto, using(std::proofs::lemmas::Grind::common_steps, crate::proofs::BackLaws::back_next, crate::proofs::BackLaws::back_start, crate::proofs::LabelLaws::skip_on, crate::proofs::LabelLaws::skip_stop, crate::proofs::LabelLaws::skip_none))]
fn last_byte(message: &[u8], end: usize) -> Option<usize>
    requires { end ≤ length message.now }
    ensures { let rest = skip_blanks (back message.now end) in MatchOption result (rest ≡ []) (λ i. (i < end) × (rest ≡ back message.now (i + 1))) }
{
    for i in (0..end).rev() {
        if !is_blank(message[i]) {
            return Some(i);
        }
    }
    None
}

// Whether an even number of backslashes stands right before `end`.
#[tactic(auto, using(std::proofs::lemmas::Grind::common_steps, crate::proofs::BackLaws::back_next, crate::proofs::BackLaws::back_start, crate::proofs::LabelLaws::even_on, crate::proofs::LabelLaws::even_stop, crate::proofs::LabelLaws::turned_start, crate::proofs::LabelLaws::turned_true, crate::proofs::LabelLaws::turned_on))]
fn even_slashes(message: &[u8], end: usize) -> bool
    requires { end ≤ length message.now }
    ensures { result ≡ even_slashes (back message.now end) }
{
    let mut even = true;
    for i in (0..end).rev() {
        if message[i] != b'\\' {
            return even;
        }
        even = !even;
    }
    even
}

// Whether the byte at `i` is a quote that no backslash escapes.
#[tactic(auto, using(std::proofs::lemmas::Grind::common_steps, crate::proofs::BackLaws::back_next, crate::proofs::LabelLaws::quote_is, crate::proofs::LabelLaws::quote_none))]
fn quote_at(message: &[u8], i: usize) -> bool
    requires { i < length message.now }
    ensures { result ≡ quote_first (back message.now (i + 1)) }
{
    message[i] == b'"' && even_slashes(message, i)
}

// Where the key that ends at `end` starts.
#[tactic(auto, using(std::proofs::lemmas::Grind::common_steps, crate::proofs::BackLaws::back_start, crate::proofs::LabelLaws::key_stop, crate::proofs::LabelLaws::key_on, crate::proofs::LabelLaws::key_none, crate::proofs::LabelLaws::span_none, crate::proofs::LabelLaws::span_more))]
fn key_start(message: &[u8], end: usize) -> usize
    requires { end ≤ length message.now }
    ensures message_value { take (end - result) (drop result message.now) ≡ key_back [] (back message.now end) }
    ensures upper_bound { result ≤ end }
{
    for i in (0..end).rev() {
        if quote_at(message, i) {
            return i + 1;
        }
    }
    0
}

// The place of a byte before `end`, blanks skipped.
#[tactic(auto, using(std::proofs::lemmas::Grind::common_steps, crate::proofs::BackLaws::back_next, crate::proofs::LabelLaws::behind_is, crate::proofs::LabelLaws::behind_other, crate::proofs::LabelLaws::behind_none))]
fn byte_back(message: &[u8], end: usize, sought: u8) -> Option<usize>
    requires { end ≤ length message.now }
    ensures result_value { back_at message.now result ≡ behind_byte sought (skip_blanks (back message.now end)) }
    ensures place_in { PlaceIn (length message.now) result }
{
    let i = last_byte(message, end)?;
    if message[i] != sought {
        return None;
    }
    Some(i)
}

// The bytes of the key before a value, if it has one.
#[tactic(auto, using(std::proofs::lemmas::Grind::common_steps, crate::proofs::LabelLaws::key_is))]
fn key_before(message: &[u8], start: usize) -> Option<&[u8]>
    ensures { let key = key_before (before message.now start) in MatchOption result (key ≡ None) (λ found. key ≡ Some found.now) }
{
    let colon = byte_back(message, start.min(message.len()), b':')?;
    let close = byte_back(message, colon, b'"')?;
    Some(&message[key_start(message, close)..close])
}

fn put_key<const N: usize>(message: &[u8], start: usize, out: &mut Page<N>)
    requires { length out.old + shown_room ≤ N }
    ensures puts { out.new ≡ out.old ++ key_text (key_before (before message.now start)) }
    ensures upper_bound { length out.new ≤ length out.old + shown_room }
{
    match key_before(message, start) {
        Some(key) => put_shown(out, key),
        None => out.put(b"-"),
    }
}

// Whether a type reference with a flag is to an alternate.
#[tactic(auto, using(std::proofs::lemmas::Grind::common_steps, crate::proofs::LabelLaws::an_array, crate::proofs::LabelLaws::a_built_in, crate::proofs::LabelLaws::a_row))]
fn is_alternate(table: &[u32], reference: u32, array: u32) -> bool
    ensures { result ≡ alternate_ref table.now reference array }
{
    let t = reference as usize;
    array == 0 && FIRST_ROW <= t && word(table, t - FIRST_ROW, row::KIND) == kind::ALTERNATE
}

fn is_alternative(table: &[u32], records: &[u32], n: usize) -> bool
    ensures { result ≡ of_alternate table.now (seen_at records.now n) }
{
    match record_at(records, n) {
        Some(record) => is_alternate(table, record.reference, record.array),
        None => false,
    }
}

// What the record with a number is called, whose value starts there.
#[tactic(auto, using(std::proofs::lemmas::Grind::common_steps, crate::proofs::LabelLaws::label_arguments, crate::proofs::LabelLaws::label_as, crate::proofs::LabelLaws::label_key))]
pub fn put_label<const N: usize>(tree: &Tree, n: usize, start: usize, out: &mut Page<N>)
    requires { length out.old + shown_room ≤ N }
    ensures puts { out.new ≡ out.old ++ label_text tree.now.types.table.now tree.now.message.now tree.now.records.now n start }
    ensures upper_bound { length out.new ≤ length out.old + shown_room }
{
    if n == 0 {
        out.put(b"arguments");
    } else if is_alternative(tree.types.table, tree.records, n - 1) {
        out.put(b"as");
    } else {
        put_key(tree.message, start, out);
    }
}
