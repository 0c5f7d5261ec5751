// Strings, keys, and the value under a key. Any node may be asked.
ghost use Rattle.std.specs.Prelude.{◌≡◌};
ghost use Rattle.strings.specs.Strings.{grammar_of};
ghost use Rattle.text.specs.Nodes.{node};
ghost use Rattle.lookups.specs.Lookups.{string_kind, plain_kind, NodeMeans, FindsValue};

use strings::dialects::Dialect;
use strings::meanings::means;
use text::nodes::{NODE_END, NODE_KIND, NODE_NEXT, NODE_START, node_number, node_word};
use tokens::node;

fn string_kind(kind: u32) -> bool
    ensures { result ≡ string_kind kind }
{
    matches!(kind, node::PLAIN_STRING | node::OTHER_STRING)
}

// Whether the kind is that of a string or a key whose bytes are its code points.
pub fn plain_kind(kind: u32) -> bool
    ensures { result ≡ plain_kind kind }
{
    matches!(kind, node::PLAIN_STRING | node::PLAIN_KEY)
}

// Whether the value at node k is a string.
pub fn is_string(nodes: &[u32], k: usize) -> bool
    ensures { result ≡ string_kind (node nodes.now k 0) }
{
    string_kind(node_word(nodes, k, NODE_KIND))
}

// Whether the string or key at node k means the bytes `name`.
pub fn node_means(s: &[u8], dialect: Dialect, nodes: &[u32], k: usize, name: &[u8]) -> bool
    ensures { NodeMeans (grammar_of dialect) s.now nodes.now k name.now result }
{
    let a = node_number(nodes, k, NODE_START);
    let e = node_number(nodes, k, NODE_END);
    let plain = plain_kind(node_word(nodes, k, NODE_KIND));
    means(s, dialect, a, e, plain, name)
}

// The node of the value under a key of the object at node k, if it has the key.
pub fn value_at(s: &[u8], dialect: Dialect, nodes: &[u32], k: usize, name: &[u8]) -> Option<usize>
    ensures { FindsValue (grammar_of dialect) s.now nodes.now k name.now result }
{
    let end = node_number(nodes, k, NODE_NEXT);
    if end <= k {
        return None;
    }
    let mut a = k + 1;
    while a < end {
        if node_means(s, dialect, nodes, a, name) {
            return Some(a + 1);
        }
        let n = node_number(nodes, a, NODE_NEXT);
        if n <= a {
            return None;
        }
        a = n;
    }
    None
}
