// Repeated keys of a small object: each key is compared with those before it.
ghost use Rattle.strings.specs.Strings.{grammar_of};
ghost use Rattle.text.specs.Fields.{NewKey, FindsKey};

use crate::fields::same_key;
use crate::nodes::{NODE_NEXT, Tree, node_number};

// Whether no key from node b up to node a means what the key at node a does.
fn is_new_key(tree: Tree, b: usize, a: usize) -> bool
    ensures { NewKey (grammar_of tree.entry.dialect) tree.entry.bytes.now tree.entry.nodes.now b a result }
{
    let mut i = b;
    while i < a {
        if same_key(tree, i, a) {
            return false;
        }
        let n = node_number(tree.nodes, i, NODE_NEXT);
        if n <= i {
            return true;
        }
        i = n;
    }
    true
}

// The first key from node b up to node `end` that means what one before it does.
pub fn first_pair(tree: Tree, b: usize, end: usize) -> Option<usize>
    ensures { FindsKey (grammar_of tree.entry.dialect) tree.entry.bytes.now tree.entry.nodes.now b end (Ok result) }
{
    let mut i = b;
    while i < end {
        if !is_new_key(tree, b, i) {
            return Some(i);
        }
        let n = node_number(tree.nodes, i, NODE_NEXT);
        if n <= i {
            return None;
        }
        i = n;
    }
    None
}
