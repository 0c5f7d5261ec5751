// The records open around a record, by their ends.
ghost use Rattle.std.specs.Prelude.{◌≡◌, ◌≤◌, ℕ, List, [], length};
ghost use Rattle.trees.specs.Backwards.{back};
ghost use Rattle.trees.specs.Nesting.{still_open, opened};

use std::marker::Model;

#[derive(Drop)]
pub struct Around<const M: usize> {
    ends: [u32; M],
    count: usize,
}

// Clauses see the ends, the innermost first.
impl<const M: usize> Model for Around<M> {
    ghost Value = { List ℕ };

    ghost view = { λ a. back a.ends a.count };

    ghost invariant = { λ a. a.count ≤ M };
}

impl<const M: usize> Around<M> {
    #[tactic(auto, using(std::proofs::lemmas::Grind::common_steps, crate::proofs::BackLaws::back_none))]
    pub fn new() -> Self
        ensures { result ≡ [] }
    {
        Around {
            ends: [0; M],
            count: 0,
        }
    }

    #[tactic(auto, using(std::proofs::lemmas::Grind::common_steps, crate::proofs::BackLaws::back_length))]
    pub fn len(&self) -> usize
        ensures { result ≡ length self.now }
    {
        self.count
    }

    // Leaves those that go on after a start.
    #[tactic(auto, using(std::proofs::lemmas::Grind::common_steps, crate::proofs::BackLaws::back_next, crate::proofs::BackLaws::back_start, crate::proofs::NestLaws::still_on, crate::proofs::NestLaws::still_stop, crate::proofs::NestLaws::still_none))]
    pub fn shut(&mut self, start: usize)
        ensures { self.new ≡ still_open start self.old }
    {
        for i in (0..self.count).rev() {
            if start < self.ends[i] as usize {
                self.count = i + 1;
                return;
            }
        }
        self.count = 0;
    }

    // Opens a record within them, where there is room for its end.
    #[tactic(auto, using(std::proofs::lemmas::Grind::common_steps, crate::proofs::BackLaws::back_next, crate::proofs::BackLaws::back_set, crate::proofs::BackLaws::back_length, crate::proofs::NestLaws::opened_one, crate::proofs::NestLaws::opened_full))]
    pub fn open(&mut self, end: u32)
        ensures { self.new ≡ opened M end self.old }
    {
        if self.count < M {
            self.ends[self.count] = end;
            self.count += 1;
        }
    }
}
