// Readings: a value reader and a member reader that call each other, the levels left falling.
ghost use Rattle.std.specs.Prelude.{◌≡◌, [], ◌∷◌, suc, ◌+◌, ◌*◌, ◌≤◌, ◌<◌, ◌^◌};
ghost use Rattle.text.specs.Nodes.{node};
ghost use Rattle.readings.specs.Records.{put_record, ReadsWhole};
ghost use Rattle.readings.specs.Readers.{ReadsValue, ReadsPlain, ReadsItems, ReadsFields};

use crate::contents::{Content, content_at};
use crate::records::put_record;
use crate::types::{Choice, type_for};
use children::lists::mandatory_one;
use grammar::MESSAGE_LEVELS;
use members::chains::field_member;
use members::mandatory::mandatory_members;
use rows::rows::word;
use rules::row;
use text::nodes::{NODE_END, NODE_NEXT, NODE_START, node_number, node_word};

// How many records there are now, or that there is no reading.
#[derive(Clone, Copy)]
pub enum Count {
    Records(usize),
    Nothing,
}

// At which type a value is read: a type reference, 1 if as an array of it, and whether keys that no member has pass.
#[derive(Clone, Copy)]
pub struct ReadAs {
    pub reference: u32,
    pub array: u32,
    pub passes: bool,
}

// The structs whose members an object has, as links, 0 for none, and whether keys that no member has pass.
#[derive(Clone, Copy)]
pub struct Members {
    pub base: u32,
    pub branch: u32,
    pub passes: bool,
}

// The node that is read, the levels left below it, and the count of records so far.
#[derive(Clone, Copy)]
pub struct At {
    pub node: usize,
    pub left: usize,
    pub count: usize,
}

// The record of node k at a type.
fn put_node_record(nodes: &[u32], k: usize, t: u32, array: u32, records: &mut [u32], n: usize)
    ensures { records.new ≡ put_record records.old n (node nodes.now k 1 ∷ node nodes.now k 2 ∷ t ∷ array ∷ []) }
{
    put_record(
        records,
        n,
        node_word(nodes, k, NODE_START),
        node_word(nodes, k, NODE_END),
        t,
        array,
    );
}

// The value at a node, at a type.
#[cycle(readers)]
fn read_value(
    schema: &[u8],
    rows: &[u32],
    m: &[u8],
    nodes: &[u32],
    index: &[u32],
    at: At,
    how: ReadAs,
    records: &mut [u32],
) -> Count
    requires { (at.node < 2 ^ 32) × (at.count ≤ 2 * at.node) }
    ensures { ReadsValue schema.now rows.now m.now nodes.now index.now records.old records.new at.node how.reference how.array how.passes at.left at.count result }
{
    let k = at.node;
    let left = at.left;
    let n = at.count;
    let t = how.reference;
    let array = how.array;
    let passes = how.passes;
    match type_for(rows, nodes, k, t, array) {
        Choice::NoAlternative => Count::Nothing,
        Choice::Itself => read_plain(schema, rows, m, nodes, index, at, how, records),
        Choice::Alternative(reference) => {
            put_node_record(nodes, k, t, array, records, n);
            let at = At {
                node: k,
                left,
                count: n + 1,
            };
            let how = ReadAs {
                reference,
                array,
                passes,
            };
            read_plain(schema, rows, m, nodes, index, at, how, records)
        }
    }
}

// The value at a node, at a type that is no alternate.
#[cycle(readers)]
fn read_plain(
    schema: &[u8],
    rows: &[u32],
    m: &[u8],
    nodes: &[u32],
    index: &[u32],
    at: At,
    how: ReadAs,
    records: &mut [u32],
) -> Count
    requires { (at.node < 2 ^ 32) × (at.count ≤ 2 * at.node + 1) }
    ensures { ReadsPlain schema.now rows.now m.now nodes.now index.now records.old records.new at.node how.reference how.array how.passes at.left at.count result }
{
    let k = at.node;
    let left = at.left;
    let n = at.count;
    let t = how.reference;
    let array = how.array;
    let passes = how.passes;
    let content = content_at(schema, rows, m, nodes, index, k, t, array);
    let count = n + 1;
    put_node_record(nodes, k, t, array, records, n);
    match content {
        Content::Misfit => Count::Nothing,
        Content::Alone => Count::Records(count),
        Content::Elements => {
            if left == 0 {
                return Count::Nothing;
            }
            let inside = At {
                node: k,
                left: left - 1,
                count,
            };
            read_items(schema, rows, m, nodes, index, inside, how, records)
        }
        Content::Members(base, branch) => {
            if left == 0 {
                return Count::Nothing;
            }
            let inside = At {
                node: k,
                left: left - 1,
                count,
            };
            let of = Members {
                base,
                branch,
                passes,
            };
            read_fields(schema, rows, m, nodes, index, inside, of, records)
        }
    }
}

// The elements of the array at a node, each at the type alone.
#[cycle(readers)]
fn read_items(
    schema: &[u8],
    rows: &[u32],
    m: &[u8],
    nodes: &[u32],
    index: &[u32],
    at: At,
    how: ReadAs,
    records: &mut [u32],
) -> Count
    requires { (at.node < 2 ^ 32) × (at.count ≤ 2 * suc at.node) }
    ensures { ReadsItems schema.now rows.now m.now nodes.now index.now records.old records.new at.node how.reference how.passes at.left at.count result }
{
    let k = at.node;
    let left = at.left;
    let reference = how.reference;
    let passes = how.passes;
    let end = node_number(nodes, k, NODE_NEXT);
    let mut node = k + 1;
    let mut count = at.count;
    while node < end {
        let at = At { node, left, count };
        let how = ReadAs {
            reference,
            array: 0,
            passes,
        };
        let v = read_value(schema, rows, m, nodes, index, at, how, records);
        let Count::Records(c) = v else {
            return Count::Nothing;
        };
        let next = node_number(nodes, node, NODE_NEXT);
        if next <= node {
            return Count::Nothing;
        }
        count = c;
        node = next;
    }
    if node != end {
        return Count::Nothing;
    }
    Count::Records(count)
}

// The fields of the object at a node, each a member of one of two structs, and every mandatory member among them.
#[cycle(readers)]
fn read_fields(
    schema: &[u8],
    rows: &[u32],
    m: &[u8],
    nodes: &[u32],
    index: &[u32],
    at: At,
    of: Members,
    records: &mut [u32],
) -> Count
    requires { (at.node < 2 ^ 32) × (at.count ≤ 2 * suc at.node) }
    ensures { ReadsFields schema.now rows.now m.now nodes.now index.now records.old records.new at.node of.base of.branch of.passes at.left at.count result }
{
    let k = at.node;
    let left = at.left;
    let base = of.base;
    let branch = of.branch;
    let passes = of.passes;
    let end = node_number(nodes, k, NODE_NEXT);
    let mut key = k + 1;
    let mut count = at.count;
    let mut met = 0;
    while key < end {
        let link = field_member(schema, rows, m, nodes, index, key, base, branch);
        if link == 0 {
            return Count::Nothing;
        }
        let member = link - 1;
        let node = key + 1;
        let at = At { node, left, count };
        let how = ReadAs {
            reference: word(rows, member, row::TYPE_REF),
            array: word(rows, member, row::ARRAY_MARK),
            passes,
        };
        let v = read_value(schema, rows, m, nodes, index, at, how, records);
        let Count::Records(c) = v else {
            return Count::Nothing;
        };
        let next = node_number(nodes, node, NODE_NEXT);
        if next <= node {
            return Count::Nothing;
        }
        count = c;
        met += mandatory_one(rows, member);
        key = next;
    }
    if key != end {
        return Count::Nothing;
    }
    if met != mandatory_members(rows, index, base, branch) {
        return Count::Nothing;
    }
    Count::Records(count)
}

// The whole value at node k, at a type: its records from the first on.
pub fn read_whole(
    schema: &[u8],
    rows: &[u32],
    m: &[u8],
    nodes: &[u32],
    index: &[u32],
    k: usize,
    how: ReadAs,
    records: &mut [u32],
) -> Count
    requires { k < 2 ^ 32 }
    ensures { ReadsWhole schema.now rows.now m.now nodes.now index.now records.old records.new k how.reference how.array how.passes result }
{
    let at = At {
        node: k,
        left: MESSAGE_LEVELS,
        count: 0,
    };
    read_value(schema, rows, m, nodes, index, at, how, records)
}
