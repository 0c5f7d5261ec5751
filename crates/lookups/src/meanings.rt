// What the strings and keys of a message mean, as bytes. Any node may be asked.
ghost use Rattle.lookups.specs.Lookups.{InnerBytes, NodeDecodes};

use strings::bytes::part_of;
use strings::decoded::decode;
use strings::dialects::Dialect;
use text::nodes::{NODE_END, NODE_START, node_number};

// The bytes between the quotes of the key or string at node k.
pub fn inner_bytes<'a>(m: &'a [u8], nodes: &[u32], k: usize) -> &'a [u8]
    ensures { InnerBytes m.now nodes.now k result.now }
{
    let a = node_number(nodes, k, NODE_START);
    let e = node_number(nodes, k, NODE_END);
    part_of(m, a + 1, e.saturating_sub(a).saturating_sub(2))
}

// Decodes the key or string at node k.
pub fn decode_node(m: &[u8], nodes: &[u32], k: usize, bytes: &mut [u8]) -> Option<usize>
    ensures { NodeDecodes m.now nodes.now k bytes.new result }
{
    let a = node_number(nodes, k, NODE_START);
    decode(m, Dialect::Message, a, bytes)
}
