// The keys of one object, over the nodes: from one key's node the next one's is known.
ghost use Rattle.std.specs.Prelude.{◌≡◌};
ghost use Rattle.strings.specs.Strings.{grammar_of};
ghost use Rattle.text.specs.Fields.{SameKeys, KeyHash, plain_key};
ghost use Rattle.text.specs.Nodes.{node_end, node_kind, node_start};

use crate::nodes::{NODE_END, NODE_KIND, NODE_NEXT, NODE_START, Tree, node_number, node_word};
use strings::hashes::hash_of;
use strings::meanings::same_meaning;
use tokens::node;

// Where a key stands, and whether its bytes are its code points.
#[derive(Clone, Copy)]
struct KeyPlace {
    start: usize,
    end: usize,
    plain: bool,
}

// The place of the key at node a.
fn key_place(nodes: &[u32], a: usize) -> KeyPlace
    ensures start { result.start ≡ node_start nodes.now a }
    ensures end { result.end ≡ node_end nodes.now a }
    ensures plain { result.plain ≡ plain_key (node_kind nodes.now a) }
{
    KeyPlace {
        start: node_number(nodes, a, NODE_START),
        end: node_number(nodes, a, NODE_END),
        plain: node_word(nodes, a, NODE_KIND) == node::PLAIN_KEY,
    }
}

// Whether the keys at nodes a and b mean the same.
pub fn same_key(tree: Tree, a: usize, b: usize) -> bool
    ensures { SameKeys (grammar_of tree.entry.dialect) tree.entry.bytes.now tree.entry.nodes.now a b result }
{
    let x = key_place(tree.nodes, a);
    let y = key_place(tree.nodes, b);
    same_meaning(
        tree.bytes,
        tree.dialect,
        x.start,
        x.end,
        x.plain,
        y.start,
        y.end,
        y.plain,
    )
}

// The hash of what the key at node a means.
pub fn key_hash(tree: Tree, a: usize) -> u32
    ensures { KeyHash (grammar_of tree.entry.dialect) tree.entry.bytes.now tree.entry.nodes.now a result }
{
    let x = key_place(tree.nodes, a);
    hash_of(tree.bytes, tree.dialect, x.start, x.end, x.plain)
}

// Whether there are no more than `most` keys from node b up to node `end`. A key and its value are two nodes at least.
pub fn has_few(nodes: &[u32], b: usize, end: usize, most: usize) -> bool {
    let mut i = b;
    for passed in 0..most {
        if end.saturating_sub(i) / 2 <= most - passed {
            return true;
        }
        let n = node_number(nodes, i, NODE_NEXT);
        if n <= i {
            return true;
        }
        i = n;
    }
    end.saturating_sub(i) / 2 == 0
}
