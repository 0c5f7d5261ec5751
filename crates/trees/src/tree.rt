// The records of a message as lines of a tree, put on a page.
ghost use Rattle.std.specs.Prelude.{◌≡◌, ◌+◌, ◌≤◌, ◌++◌, length};
ghost use Rattle.walker.specs.Seeing.{seen_at};
ghost use Rattle.trees.specs.Serving.Rooms.{shown_room, indent_room, left_room, right_room, line_room};
ghost use Rattle.trees.specs.TreeText.{indent_text, value_text, left_text, right_text, line_at, open_then};

use crate::depth::Around;
use crate::labels::put_label;
use crate::shown::{SHOWN_ROOM, put_shown};
use crate::types::{TYPE_ROOM, Types};
use lines::page::Page;
use walker::records::{Record, part_of};

// The most levels that a line is indented by; the records of an accepted message have fewer.
const DEEPEST: usize = 80;

// The longest line: the indent and the label, then the type, the text and what stands around them.
const LEFT_ROOM: usize = 2 * (1 + DEEPEST) + SHOWN_ROOM;

const RIGHT_ROOM: usize = TYPE_ROOM + SHOWN_ROOM + 6;

pub const LINE_ROOM: usize = LEFT_ROOM + RIGHT_ROOM;

// What a tree is made of: the records of a message, and the types that they are of.
#[derive(Clone, Copy)]
pub struct Tree<'a> {
    pub types: Types<'a>,
    pub message: &'a [u8],
    pub records: &'a [u32],
}

#[tactic(auto, using(std::proofs::lemmas::Grind::common_steps, crate::proofs::TreeLaws::indent_is, crate::proofs::TreeLaws::indent_length))]
fn put_indent<const N: usize>(depth: usize, out: &mut Page<N>)
    requires { length out.old + indent_room ≤ N }
    ensures puts { out.new ≡ out.old ++ indent_text depth }
    ensures upper_bound { length out.new ≤ length out.old + indent_room }
{
    out.put_spaces(2 * (1 + depth.min(DEEPEST)));
}

#[tactic(auto, using(std::proofs::lemmas::Grind::common_steps, crate::proofs::TreeLaws::value_absent, crate::proofs::TreeLaws::value_there))]
fn put_value<const N: usize>(message: &[u8], start: usize, end: usize, out: &mut Page<N>)
    requires { length out.old + shown_room ≤ N }
    ensures puts { out.new ≡ out.old ++ value_text message.now start end }
    ensures upper_bound { length out.new ≤ length out.old + shown_room }
{
    let value = part_of(message, start, end);
    if value.len() == 0 {
        out.put(b"(absent)");
    } else {
        put_shown(out, value);
    }
}

// The indent and the label of the record with a number.
#[tactic(auto, using(std::proofs::lemmas::Grind::common_steps, crate::proofs::TreeLaws::left_is, crate::proofs::TreeLaws::indent_length))]
fn put_left<const N: usize>(tree: &Tree, n: usize, start: usize, depth: usize, out: &mut Page<N>)
    requires { length out.old + left_room ≤ N }
    ensures puts { out.new ≡ out.old ++ left_text tree.now.types.table.now tree.now.message.now tree.now.records.now n start depth }
    ensures upper_bound { length out.new ≤ length out.old + left_room }
{
    put_indent(depth, out);
    put_label(tree, n, start, out);
}

// The type and the text of a record, to the end of its line.
#[tactic(auto, using(std::proofs::lemmas::Grind::common_steps, crate::proofs::TreeLaws::right_is, crate::proofs::TypeLaws::type_length, crate::proofs::TreeLaws::value_length))]
fn put_right<const N: usize>(tree: &Tree, seen: Record, out: &mut Page<N>)
    requires { length out.old + right_room ≤ N }
    ensures { out.new ≡ out.old ++ right_text tree.now.types.schema.now tree.now.types.table.now tree.now.message.now seen.start seen.end seen.reference seen.array }
{
    out.put(b": ");
    tree.types.put_type(seen.reference, seen.array, out);
    out.put(b" = ");
    put_value(tree.message, seen.start as usize, seen.end as usize, out);
    out.push(b'\n');
}

// Puts the line of the record seen at a number, within those around it, and opens that record; or there is none, and nothing is put.
#[tactic(auto, using(std::proofs::lemmas::Grind::common_steps, crate::proofs::TreeLaws::line_is, crate::proofs::TreeLaws::open_is, crate::proofs::TreeLaws::line_none, crate::proofs::TreeLaws::open_none, crate::proofs::TreeLaws::left_is, crate::proofs::TreeLaws::indent_length, crate::proofs::LabelLaws::label_length))]
pub fn put_record<const M: usize, const N: usize>(
    tree: &Tree,
    n: usize,
    seen: Option<Record>,
    around: &mut Around<M>,
    out: &mut Page<N>,
)
    requires { (seen ≡ seen_at tree.now.records.now n) × (length out.old + line_room ≤ N) }
    ensures puts { out.new ≡ out.old ++ line_at tree.now.types.schema.now tree.now.types.table.now tree.now.message.now tree.now.records.now M n around.old }
    ensures opens { around.new ≡ open_then tree.now.types.schema.now tree.now.types.table.now tree.now.message.now tree.now.records.now M n around.old }
{
    if let Some(record) = seen {
        let start = record.start as usize;
        around.shut(start);
        put_left(tree, n, start, around.len(), out);
        put_right(tree, record, out);
        around.open(record.end);
    }
}
