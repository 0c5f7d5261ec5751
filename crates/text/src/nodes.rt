// Nodes: four words each in a lent slice, written only where all four fit.
ghost use Rattle.std.specs.Prelude.{◌≡◌, ◌^◌, ◌<◌};
ghost use Rattle.text.specs.Nodes.{node, put_node};

use strings::dialects::Dialect;
use words::{put_item, word_of};

// The words of a node, counted from 0.
pub const NODE_KIND: usize = 0;

pub const NODE_START: usize = 1;

pub const NODE_END: usize = 2;

// The first node after it and what is inside it.
pub const NODE_NEXT: usize = 3;

pub const NODE_WORDS: usize = 4;

// A text and the nodes of what it holds.
#[derive(Clone, Copy)]
pub struct Tree<'a> {
    pub bytes: &'a [u8],
    pub dialect: Dialect,
    pub nodes: &'a [u32],
}

// Word i of node k; 0 past the end.
pub fn node_word(nodes: &[u32], k: usize, i: usize) -> u32
    ensures { result ≡ node nodes.now k i }
{
    word_of(nodes, NODE_WORDS, k, i)
}

// Word i of node k, as a number of a place or a node.
pub fn node_number(nodes: &[u32], k: usize, i: usize) -> usize
    ensures { result ≡ node nodes.now k i }
{
    node_word(nodes, k, i) as usize
}

// Node k: its kind, start, end, and the first node after it.
pub fn put_node(nodes: &mut [u32], k: usize, kind: u32, start: usize, end: usize, next: usize)
    requires { (k < 2 ^ 32) × (start < 2 ^ 32) × (end < 2 ^ 32) × (next < 2 ^ 32) }
    ensures { nodes.new ≡ put_node nodes.old k kind start end next }
{
    put_item(nodes, k, [kind, start as u32, end as u32, next as u32]);
}
