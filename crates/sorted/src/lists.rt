// Lists of the numbers of spans, and where each stands: a list with a place for each number below n has all of them.
ghost use Rattle.std.specs.Prelude.{◌≡◌, true, ◌^◌, ◌<◌, length};
ghost use Rattle.sorted.specs.Lists.{Placed};

use crate::spans::Spans;
use words::number_at;

// The numbers below the length in the order of their spans, the same ones in their own. No more is promised than that the words are there: whoever uses the list checks it.
pub fn sort(spans: Spans, list: &mut [u32])
    requires { length list.old < 2 ^ 32 }
{
    for (i, number) in list.iter_mut().enumerate() {
        *number = i as u32;
    }
    list.sort_unstable_by(|a, b| spans.order(*a as usize, *b as usize).then(a.cmp(b)));
}

// Notes for each of the list's first n numbers where it stands, if there is room for the note.
pub fn note_places(list: &[u32], n: usize, places: &mut [u32])
    requires { n < 2 ^ 32 }
{
    for k in 0..n {
        if let Some(place) = places.get_mut(number_at(list, k)) {
            *place = k as u32;
        }
    }
}

// Whether each number below n stands in the list, below n, where its place says.
pub fn all_placed(list: &[u32], n: usize, places: &[u32]) -> bool
    ensures { result ≡ true → Placed list.now n places.now }
{
    for i in 0..n {
        let k = number_at(places, i);
        if n <= k {
            return false;
        }
        if number_at(list, k) != i {
            return false;
        }
    }
    true
}
