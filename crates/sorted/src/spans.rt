// Spans of a text: two words each in a lent slice, a start and a length. Any words may be asked: what lies past the end of the text is left out.
ghost use Rattle.std.specs.Prelude.{◌≡◌};
ghost use Rattle.sorted.specs.Orders.{order, stands_at};
ghost use Rattle.sorted.specs.Spans.{span_at};

use crate::orders::{Sense, order_of};
use std::cmp::Ordering;
use strings::bytes::part_of;
use words::word_of;

// The words of a span, counted from 0.
const SPAN_START: usize = 0;

const SPAN_LENGTH: usize = 1;

const SPAN_WORDS: usize = 2;

#[derive(Clone, Copy)]
pub struct Spans<'a> {
    pub text: &'a [u8],
    pub words: &'a [u32],
    pub sense: Sense,
}

impl<'a> Spans<'a> {
    // The bytes of span k.
    #[tactic(auto, unfolding(crate::specs::Spans::span_at))]
    pub fn span(self, k: usize) -> &'a [u8]
        ensures { result.now ≡ span_at self.entry.text.now self.entry.words.now k }
    {
        let start = word_of(self.words, SPAN_WORDS, k, SPAN_START) as usize;
        let length = word_of(self.words, SPAN_WORDS, k, SPAN_LENGTH) as usize;
        part_of(self.text, start, length)
    }

    // How span i stands to span j.
    #[tactic(auto, unfolding(crate::specs::Orders::stands_at))]
    pub fn order(self, i: usize, j: usize) -> Ordering
        ensures { result ≡ order (stands_at self.entry.sense self.entry.text.now self.entry.words.now i) (stands_at self.entry.sense self.entry.text.now self.entry.words.now j) }
    {
        order_of(self.sense, self.span(i), self.span(j))
    }
}
