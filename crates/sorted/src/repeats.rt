// The first span that is the same as one before it: in a list in order, equal spans are neighbours.
ghost use Rattle.std.specs.Prelude.{◌≡◌, true, ◌^◌, ◌≤◌, ◌<◌, length};
ghost use Rattle.sorted.specs.Orders.{stands_at};
ghost use Rattle.sorted.specs.Lists.{least_of, Neighbours};
ghost use Rattle.sorted.specs.Repeats.{Finds};

use crate::lists::{all_placed, note_places, sort};
use crate::spans::Spans;
use std::cmp::Ordering;

// A search that was given up.
#[derive(Clone, Copy, PartialEq, Eq)]
pub struct GivenUp;

// The lesser of `best` and `here`, if the span before `here` is the same.
fn least_of(best: usize, order: Ordering, here: usize) -> usize
    ensures { result ≡ least_of best order here }
{
    if order.is_eq() { best.min(here) } else { best }
}

// The least number of the list whose span is that of its neighbour before it; given up if the list is not in order.
fn first_neighbour(spans: Spans, list: &[u32]) -> Result<Option<usize>, GivenUp>
    ensures { Neighbours (stands_at spans.entry.sense spans.entry.text.now spans.entry.words.now) list.now (length list.now) result }
{
    let mut best = list.len();
    for k in 1..list.len() {
        let last = list[k - 1] as usize;
        let here = list[k] as usize;
        let order = spans.order(last, here);
        if order.then(last.cmp(&here)).is_ge() {
            return Err(GivenUp);
        }
        best = least_of(best, order, here);
    }
    if best < list.len() {
        return Ok(Some(best));
    }
    Ok(None)
}

// Whether n numbers find room in lists of so many words.
fn has_room(n: usize, list: usize, places: usize) -> bool
    ensures { result ≡ true → (n < 2 ^ 32) × (n ≤ list) × (n ≤ places) }
{
    n <= u32::MAX as usize && n <= list && n <= places
}

// The first of n spans that is the same as one before it. It is given up for want of room in the lent words, two for each span.
pub fn first_same(
    spans: Spans,
    n: usize,
    list: &mut [u32],
    places: &mut [u32],
) -> Result<Option<usize>, GivenUp>
    ensures { Finds (stands_at spans.entry.sense spans.entry.text.now spans.entry.words.now) n result }
{
    if !has_room(n, list.len(), places.len()) {
        return Err(GivenUp);
    }
    let list = &mut list[..n];
    sort(spans, list);
    note_places(list, n, places);
    if !all_placed(list, n, places) {
        return Err(GivenUp);
    }
    first_neighbour(spans, list)
}
