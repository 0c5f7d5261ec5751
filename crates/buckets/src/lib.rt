// An index of numbered items by a hash that equal things share, over lent words: the items of a bucket are a chain, the latest first.
// A word is 0 where no item follows, else the item and one.
#![tactic(auto)]

ghost use Rattle.std.specs.Prelude.{◌≡◌, ◌+◌, ◌^◌, ◌<◌, length, get_or};
ghost use Rattle.buckets.specs.Buckets.{bucket_of, Added};

pub const BUCKETS: usize = 512;

pub fn bucket_of(hash: u32) -> usize
    ensures { result ≡ bucket_of hash }
{
    hash as usize % BUCKETS
}

// Puts item i first in the bucket of its hash.
pub fn add(heads: &mut [u32; BUCKETS], links: &mut [u32], hash: u32, i: usize)
    requires { (i < length links.old) × (i + 1 < 2 ^ 32) }
    ensures { Added heads.old links.old hash i heads.new links.new }
{
    let h = bucket_of(hash);
    links[i] = heads[h];
    heads[h] = (i + 1) as u32;
}

// The word of the first item in the bucket of a hash.
pub fn first(heads: &[u32; BUCKETS], hash: u32) -> usize
    ensures { result ≡ get_or heads.now (bucket_of hash) 0 }
{
    heads[bucket_of(hash)] as usize
}

// The word of the item after item i; 0 past the end.
pub fn next(links: &[u32], i: usize) -> usize
    ensures { result ≡ get_or links.now i 0 }
{
    if links.len() <= i {
        return 0;
    }
    links[i] as usize
}
