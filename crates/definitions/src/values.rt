// Names as they stand in the nodes, as words of rows. Any node may be asked.
ghost use Rattle.rules.specs.Serving.RawTable.{packed};
ghost use Rattle.definitions.specs.Places.{NameWord, Star};

use crate::source::Source;
use rules::SCHEMA_BYTES;
use text::nodes::{NODE_END, NODE_START, node_number, node_word};
use text::reader::stands;

// The first byte of the string or key at node k, past its quote and `skip` bytes more.
pub fn name_start(nodes: &[u32], k: usize, skip: u32) -> u32
    ensures { NameWord nodes.now k skip (λ n. n.start) result }
{
    let a = node_number(nodes, k, NODE_START) + skip as usize;
    u32::try_from(a + 1).unwrap_or(0)
}

// How many bytes it has from there on.
pub fn name_size(nodes: &[u32], k: usize, skip: u32) -> u32
    ensures { NameWord nodes.now k skip (λ n. n.size) result }
{
    let a = node_number(nodes, k, NODE_START) + skip as usize + 2;
    let e = node_number(nodes, k, NODE_END);
    u32::try_from(e.saturating_sub(a)).unwrap_or(0)
}

// Both in one word, for a name that refers.
pub fn name_word(nodes: &[u32], k: usize) -> u32
    ensures { NameWord nodes.now k 0 packed result }
{
    let start = name_start(nodes, k, 0) as usize;
    let size = name_size(nodes, k, 0) as usize;
    u32::try_from(SCHEMA_BYTES * start + size).unwrap_or(0)
}

// Whether the key at node a has a `*` in front.
pub fn star(source: &Source, a: usize) -> bool
    ensures { Star source.now.bytes.now source.now.nodes.now a result }
{
    let i = node_word(source.nodes, a, NODE_START) as usize + 1;
    stands(source.bytes, i, b'*')
}
