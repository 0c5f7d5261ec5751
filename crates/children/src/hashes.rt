// Hashes of names, and of what keys and strings mean.
ghost use Rattle.std.specs.Prelude.{◌≡◌};
ghost use Rattle.strings.specs.Hashes.{hash_more, hash_of};
ghost use Rattle.children.specs.Lookup.{MeaningHash};

use lookups::values::plain_kind;
use strings::dialects::Dialect;
use strings::hashes::{hash_of, mix};
use text::nodes::{NODE_END, NODE_KIND, NODE_START, node_number, node_word};

// The hash of a name among the children of row r.
pub fn owner_hash(hash: u32, r: usize) -> u32
    ensures { result ≡ hash_more hash r }
{
    mix(hash, (r % 0x200000) as u32)
}

pub fn name_hash(name: &[u8]) -> u32
    ensures { result ≡ hash_of name.now }
{
    let mut hash = 0;
    let mut i = 0;
    while i < name.len() {
        hash = mix(hash, name[i] as u32);
        i += 1;
    }
    hash
}

// The hash of what the key or string at node k of a message means.
pub fn meaning_hash(m: &[u8], nodes: &[u32], k: usize) -> u32
    ensures { MeaningHash m.now nodes.now k result }
{
    let a = node_number(nodes, k, NODE_START);
    let e = node_number(nodes, k, NODE_END);
    let plain = plain_kind(node_word(nodes, k, NODE_KIND));
    hash_of(m, Dialect::Message, a, e, plain)
}
