// Words that a caller lends: read and written in items of a width, copied into, and set to zero.
#![tactic(auto)]

ghost use Rattle.std.specs.Prelude.{◌≡◌, ◌++◌, ◌-◌, ◌≤◌, ◌<◌, length, get_or, set, take, drop, replicate};
ghost use Rattle.grammar.specs.Notation.{word_of};
ghost use Rattle.words.specs.Items.{put_item};

// A word as a number.
pub fn wide(word: u32) -> usize
    ensures { result ≡ word }
{
    word as usize
}

// Word i of item k, in items of `width` words; 0 past the end.
pub fn word_of(words: &[u32], width: usize, k: usize, i: usize) -> u32
    requires { 0 < width }
    ensures { result ≡ word_of width words.now k i }
{
    if words.len() / width < k {
        return 0;
    }
    let at = width * k;
    if words.len() - at <= i {
        return 0;
    }
    words[at + i]
}

// Word i as a number; 0 past the end.
pub fn number_at(words: &[u32], i: usize) -> usize
    ensures { result ≡ get_or words.now i 0 }
{
    if words.len() <= i {
        return 0;
    }
    words[i] as usize
}

// Sets word i, if there is one.
pub fn put_word(words: &mut [u32], i: usize, word: u32)
    ensures { words.new ≡ set words.old i word }
{
    if i < words.len() {
        words[i] = word;
    }
}

// Item k, in items of W words, where all of it fits.
pub fn put_item<const W: usize>(words: &mut [u32], k: usize, item: [u32; W])
    requires { 0 < W }
    ensures { words.new ≡ put_item W words.old k item.entry }
{
    if words.len() / W <= k {
        return;
    }
    let at = W * k;
    words[at..at + W].copy_from_slice(&item);
}

// Copies all words to the front of others.
pub fn copy(from: &[u32], to: &mut [u32])
    requires { length from.now ≤ length to.old }
    ensures { to.new ≡ from.now ++ drop (length from.now) to.old }
{
    to[..from.len()].copy_from_slice(from);
}

// Sets every word from `first` on to zero.
pub fn clear(words: &mut [u32], first: usize)
    ensures { words.new ≡ take first words.old ++ replicate (length words.old - first) 0 }
{
    if first < words.len() {
        words[first..].fill(0);
    }
}
