// Walks from row to row, as iterators of the rows' numbers.
ghost use Rattle.std.specs.Prelude.{◌≡◌};
ghost use Rattle.rules.specs.Rows.{walk, children};
ghost use Rattle.rows.specs.Rows.{Room, Countable};

use crate::rows::{child_count, first_child, next_row};
use std::marker::Model;

// Rows that follow each other, seen as the list of those that are left.
#[derive(Drop)]
pub struct Walk<'a> {
    rows: &'a [u32],
    at: usize,
    left: usize,
}

impl<'a> Model for Walk<'a> {
    ghost use Rattle.std.specs.Prelude.{ℕ, List};
    ghost use Rattle.rules.specs.Rows.{walk};
    ghost use Rattle.rows.specs.Rows.{Room};

    ghost Value = { List ℕ };

    ghost view = { λ w. walk w.rows.now w.at w.left };

    ghost invariant = { λ w. Room w.at w.left };
}

impl<'a> Walk<'a> {
    // The rows that are left, to be walked over once more: a type that is seen as a list and lends rows can't derive `Copy`.
    pub fn rest(&self) -> Walk<'a>
        ensures { result ≡ self.now }
    {
        Walk {
            rows: self.rows,
            at: self.at,
            left: self.left,
        }
    }
}

impl<'a> Iterator for Walk<'a> {
    ghost use Rattle.std.specs.Iterator.{YieldsFirst, item_count};

    type Item = usize;

    ghost next_gives = { YieldsFirst (λ rest. rest) };

    ghost remaining = { item_count (λ rest. rest) };

    fn next(&mut self) -> Option<usize> {
        if self.left == 0 {
            return None;
        }
        let r = self.at;
        self.at = next_row(self.rows, r);
        self.left -= 1;
        Some(r)
    }
}

// n rows from a on, each the next of the one before.
pub fn walk_from(rows: &[u32], a: usize, n: usize) -> Walk<'_>
    requires { Room a n }
    ensures { result ≡ walk rows.now a n }
{
    Walk {
        rows,
        at: a,
        left: n,
    }
}

// The values, members, branches or alternatives of row r.
pub fn children(rows: &[u32], r: usize) -> Walk<'_>
    requires { Countable r }
    ensures { result ≡ children rows.now r }
{
    walk_from(rows, first_child(rows, r), child_count(rows, r))
}
