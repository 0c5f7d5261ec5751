// Repeated keys of a large object: each key is looked up among those before it, in an index by the hashes of what they mean.
// Who chooses the keys can have them share a bucket or a hash. So a walk along a bucket is given up after so many keys, and where a key of the same hash means something else.
ghost use Rattle.std.specs.Prelude.{◌≡◌, ◌+◌, ◌^◌, ◌≤◌, ◌<◌, length};
ghost use Rattle.strings.specs.Strings.{grammar_of};
ghost use Rattle.text.specs.Fields.{FindsKey};
ghost use Rattle.text.specs.Index.{SameAfter, LooksUp};

use crate::fields::{key_hash, same_key};
use crate::nodes::{NODE_NEXT, Tree, node_number};
use buckets::{BUCKETS, add, first, next};
use grammar::MESSAGE_BYTES;
use sorted::repeats::GivenUp;
use words::{number_at, put_word};

// Keys of a bucket that are passed before it is given up. What is given up is compared pairwise, which is dearer than any bucket: no object of a message has more keys.
const LONG: usize = MESSAGE_BYTES / 2;

// Whether the key i nodes after node b, if that is before node a, means what the key at node a does.
fn is_same(tree: Tree, b: usize, i: usize, a: usize) -> bool
    ensures { SameAfter (grammar_of tree.entry.dialect) tree.entry.bytes.now tree.entry.nodes.now b i a result }
{
    if a.saturating_sub(b) <= i {
        return false;
    }
    same_key(tree, b + i, a)
}

// Whether the key at node a, which has the hash, repeats one of those from the word `head` on. A key's item is how far its node is from node b; the word after its link is its hash.
fn look_up(
    tree: Tree,
    b: usize,
    a: usize,
    hash: u32,
    links: &[u32],
    head: usize,
) -> Result<bool, GivenUp>
    ensures { LooksUp (grammar_of tree.entry.dialect) tree.entry.bytes.now tree.entry.nodes.now b a hash links.now head result }
{
    let mut word = head;
    for _left in 0..LONG {
        if word == 0 {
            return Ok(false);
        }
        let i = word - 1;
        if number_at(links, word) == hash as usize {
            if is_same(tree, b, i, a) {
                return Ok(true);
            }
            return Err(GivenUp);
        }
        word = next(links, i);
    }
    Err(GivenUp)
}

// The first key from node b up to node `end` that means what one before it does. A key has two words of the links, one for its node and one for its value's.
pub fn first_indexed(
    tree: Tree,
    b: usize,
    end: usize,
    links: &mut [u32],
) -> Result<Option<usize>, GivenUp>
    requires { (end ≤ b + length links.old) × (length links.old < 2 ^ 32) }
    ensures { FindsKey (grammar_of tree.entry.dialect) tree.entry.bytes.now tree.entry.nodes.now b end result }
{
    let mut heads = [0u32; BUCKETS];
    let mut i = b;
    while i < end {
        let hash = key_hash(tree, i);
        let head = first(&heads, hash);
        if look_up(tree, b, i, hash, links, head)? {
            return Ok(Some(i));
        }
        let n = node_number(tree.nodes, i, NODE_NEXT);
        if n <= i {
            return Ok(None);
        }
        add(&mut heads, links, hash, i - b);
        put_word(links, i - b + 1, hash);
        i = n;
    }
    Ok(None)
}
