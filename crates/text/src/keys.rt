// Repeated keys, over the nodes: one loop over all objects, and no value is read again. Nodes stand in the order of the text, so the earliest key that repeats one before it
// has the least node, and an object that opens after the least one found needs no search.
ghost use Rattle.std.specs.Prelude.{◌≡◌, ◌+◌, ◌^◌, ◌<◌, length};
ghost use Rattle.strings.specs.Strings.{grammar_of};
ghost use Rattle.text.specs.Fields.{FindsKey};
ghost use Rattle.text.specs.Keys.{FirstRepeat};
ghost use Rattle.text.specs.Search.{lesser_of, FindsAt, LeastNode};

use crate::comparisons::first_pair;
use crate::fields::has_few;
use crate::index::first_indexed;
use crate::nodes::{NODE_KIND, NODE_NEXT, NODE_START, Tree, node_number, node_word};
use grammar::MESSAGE_BYTES;
use sorted::repeats::GivenUp;
use tokens::node;

// Keys that are compared pairwise, by measurement.
const FEW_KEYS: usize = 8;

// An index has a word for each node of its object, and a node of a message takes at least two bytes. A larger object of a schema is searched as one whose search is given up.
const LINKS: usize = MESSAGE_BYTES / 2;

// Most messages have fewer nodes; the words are cleared with each.
const FEW_LINKS: usize = LINKS / 8;

const FEWEST_LINKS: usize = LINKS / 64;

// The least node found, with what one more object has.
fn lesser_of(best: usize, found: Option<usize>) -> usize
    ensures { result ≡ lesser_of best found }
{
    found.map_or(best, |i| best.min(i))
}

// The first key from node b up to node `end` that means what one before it does. The links are scratch.
fn first_quick(
    tree: Tree,
    b: usize,
    end: usize,
    links: &mut [u32],
) -> Result<Option<usize>, GivenUp>
    requires { length links.old < 2 ^ 32 }
    ensures { FindsKey (grammar_of tree.entry.dialect) tree.entry.bytes.now tree.entry.nodes.now b end result }
{
    if has_few(tree.nodes, b, end, FEW_KEYS) {
        return Ok(first_pair(tree, b, end));
    }
    if links.len() < end.saturating_sub(b) {
        return Err(GivenUp);
    }
    first_indexed(tree, b, end, links)
}

// The first key of the object at node `at` that means what one before it does; none if the node is no object. Where the search is given up, keys are compared pairwise.
fn first_at(tree: Tree, at: usize, links: &mut [u32]) -> Option<usize>
    requires { (at + 1 < 2 ^ 64) × (length links.old < 2 ^ 32) }
    ensures { FindsAt (grammar_of tree.entry.dialect) tree.entry.bytes.now tree.entry.nodes.now at result }
{
    if node_word(tree.nodes, at, NODE_KIND) != node::OBJECT {
        return None;
    }
    let end = node_number(tree.nodes, at, NODE_NEXT);
    match first_quick(tree, at + 1, end, links) {
        Ok(found) => found,
        Err(_given_up) => first_pair(tree, at + 1, end),
    }
}

// The least node of the first `count` whose key repeats one before it, or `count`.
fn least_node(tree: Tree, count: usize, links: &mut [u32]) -> usize
    requires { length links.old < 2 ^ 32 }
    ensures { LeastNode (grammar_of tree.entry.dialect) tree.entry.bytes.now tree.entry.nodes.now count result }
{
    let mut best = count;
    for at in 0..count {
        if best <= at {
            return best;
        }
        let found = first_at(tree, at, links);
        best = lesser_of(best, found);
    }
    best
}

// The same, over so many links.
fn least_over<const N: usize>(tree: Tree, count: usize) -> usize
    requires { N < 2 ^ 32 }
    ensures { LeastNode (grammar_of tree.entry.dialect) tree.entry.bytes.now tree.entry.nodes.now count result }
{
    let mut links = [0u32; N];
    least_node(tree, count, &mut links)
}

// A short text pays for few links.
fn least_in(tree: Tree, count: usize) -> usize
    ensures { LeastNode (grammar_of tree.entry.dialect) tree.entry.bytes.now tree.entry.nodes.now count result }
{
    if count <= FEWEST_LINKS {
        return least_over::<FEWEST_LINKS>(tree, count);
    }
    if count <= FEW_LINKS {
        return least_over::<FEW_LINKS>(tree, count);
    }
    least_over::<LINKS>(tree, count)
}

// The place of the opening quote of the earliest key in the objects of the first `count` nodes that repeats one before it in the same object.
pub fn first_repeat(tree: Tree, count: usize) -> Option<usize>
    ensures { FirstRepeat (grammar_of tree.entry.dialect) tree.entry.bytes.now tree.entry.nodes.now count result }
{
    let least = least_in(tree, count);
    if least < count {
        return Some(node_number(tree.nodes, least, NODE_START));
    }
    None
}
