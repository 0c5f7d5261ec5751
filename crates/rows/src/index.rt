// An index of rows by the hashes of their names: a name is looked up among the rows that were added before.
ghost use Rattle.std.specs.Prelude.{◌≡◌, ◌≤◌, ◌<◌, ◌^◌, length, replicate};
ghost use Rattle.buckets.specs.Buckets.{buckets};
ghost use Rattle.grammar.specs.Notation.{apart};
ghost use Rattle.rules.specs.Names.{clash};
ghost use Rattle.rules.specs.Rows.{walk, past};
ghost use Rattle.rules.specs.Rules.{names_of};
ghost use Rattle.rows.specs.Index.{Unlisted, Entered};
ghost use Rattle.rows.specs.Rows.{Room};

use crate::hashes::{HashedRows, Sought};
use crate::names::name_of;
use crate::rows::past_rows;
use crate::walk::walk_from;
use buckets::{BUCKETS, add, first, next};

// A run of that many rows is long.
const LONG: usize = 32;

impl<'a> HashedRows<'a> {
    // Whether a name clashes with that of none of the rows that follow the word `head`.
    pub fn is_unlisted(self, links: &[u32], head: usize, name: Sought<'_>) -> bool
        ensures { Unlisted self.entry.schema.now self.entry.rows.now links.now head name.entry.name.now result }
    {
        let mut word = head;
        for _ in 0..links.len() {
            if word == 0 {
                return true;
            }
            let r = word - 1;
            if self.clashes(r, name) {
                return false;
            }
            word = next(links, r);
        }
        true
    }

    // Adds row r to an index unless its name clashes with one in it; tells whether it does with none.
    fn add_new(self, heads: &mut [u32; BUCKETS], links: &mut [u32], r: usize) -> bool
        requires { (r < length links.old) × (length links.old < 2 ^ 32) }
        ensures { Entered self.entry.schema.now self.entry.rows.now heads.old links.old r heads.new links.new result }
    {
        let name = Sought::of(name_of(self.schema, self.rows, r));
        let head = first(heads, name.hash);
        if !self.is_unlisted(links, head, name) {
            return false;
        }
        add(heads, links, name.hash, r);
        true
    }

    // Whether no two names of n rows from a on clash: each is looked up among those before it.
    fn listed_apart(self, a: usize, n: usize, heads: &mut [u32; BUCKETS], links: &mut [u32]) -> bool
        requires { Room a n × (past self.rows.now a n ≤ length links.old) × (length links.old < 2 ^ 32) × (heads.old ≡ replicate buckets 0) }
        ensures { result ≡ apart clash (names_of self.entry.schema.now self.entry.rows.now (walk self.entry.rows.now a n)) }
    {
        for r in walk_from(self.rows, a, n) {
            if !self.add_new(heads, links, r) {
                return false;
            }
        }
        true
    }

    // Whether no two names of n rows from a on clash. The links are scratch.
    pub fn all_apart(self, links: &mut [u32], a: usize, n: usize) -> bool
        requires { Room a n × (length links.old < 2 ^ 32) }
        ensures { result ≡ apart clash (names_of self.entry.schema.now self.entry.rows.now (walk self.entry.rows.now a n)) }
    {
        if n < LONG || links.len() < past_rows(self.rows, a, n) {
            return self.pairs_apart(walk_from(self.rows, a, n));
        }
        let mut heads = [0u32; BUCKETS];
        self.listed_apart(a, n, &mut heads, links)
    }
}
