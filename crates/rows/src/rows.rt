// Rows of eight words in a slice. Everything is total: past the end every word is 0.
ghost use Rattle.std.specs.Prelude.{◌≡◌, ◌+◌, ◌-◌, ◌*◌, ◌≤◌, ◌<◌, ◌^◌};
ghost use Rattle.grammar.specs.Limits.{row_words};
ghost use Rattle.rules.specs.Rows as Rows;
ghost use Rattle.rules.specs.Rows.{row_count, past, unnamed, owns, past_children};
ghost use Rattle.rows.specs.Rows.{Countable, Follows, Room, First, Counted};

use rules::{ROW_WORDS, kind, row};
use words::word_of;

pub fn wide(x: u32) -> usize
    ensures { result ≡ x }
{
    x as usize
}

// Word i of row r, both counted from 0.
pub fn word(rows: &[u32], r: usize, i: usize) -> u32
    ensures { result ≡ Rows.word rows.now r i }
{
    word_of(rows, ROW_WORDS, r, i)
}

// Word i of row r, one of the table's, where nothing has to be asked.
pub fn word_at(rows: &[u32], r: usize, i: usize) -> u32
    requires { (r < row_count rows.now) × (i < row_words) }
    ensures { result ≡ Rows.word rows.now r i }
{
    rows[ROW_WORDS * r + i]
}

// The row after row r and what belongs to that row alone.
pub fn next_row(rows: &[u32], r: usize) -> usize
    requires { r < 2 ^ 63 }
    ensures { Follows rows.now r result }
{
    r + 1
}

// The row after n rows from c on, each the next of the one before.
pub fn past_rows(rows: &[u32], c: usize, n: usize) -> usize
    requires { Room c n }
    ensures { (result ≡ past rows.now c n) × (result ≤ 2 ^ 61 + (c - 2 ^ 61) + n) }
{
    let mut i = c;
    for _ in 0..n {
        i = next_row(rows, i);
    }
    i
}

// Whether row r is a struct with start, length and base link 0.
pub fn is_unnamed(rows: &[u32], r: usize) -> bool
    ensures { result ≡ unnamed rows.now r }
{
    if word(rows, r, row::KIND) != kind::STRUCT {
        return false;
    }
    if word(rows, r, row::START) != 0 {
        return false;
    }
    if word(rows, r, row::SIZE) != 0 {
        return false;
    }
    word(rows, r, row::BASE) == 0
}

// Whether row r is a union or a command whose inline struct follows it.
pub fn owns_struct(rows: &[u32], r: usize) -> bool
    requires { Countable r }
    ensures { result ≡ owns rows.now r }
{
    let owner = word(rows, r, row::KIND);
    if owner != kind::UNION && owner != kind::COMMAND {
        return false;
    }
    let s = next_row(rows, r);
    if word(rows, r, row::OWNER_LINK) as usize != s + 1 {
        return false;
    }
    is_unnamed(rows, s)
}

// How many values, members, branches or alternatives row r has.
pub fn child_count(rows: &[u32], r: usize) -> usize
    ensures { Counted rows.now r result }
{
    match word(rows, r, row::KIND) {
        kind::ENUM => word(rows, r, row::COUNT) as usize,
        kind::STRUCT => word(rows, r, row::COUNT) as usize,
        kind::UNION => word(rows, r, row::BRANCH_COUNT) as usize,
        kind::ALTERNATE => word(rows, r, row::COUNT) as usize,
        _ => 0,
    }
}

// The first child of row r.
pub fn first_child(rows: &[u32], r: usize) -> usize
    requires { Countable r }
    ensures { First rows.now r result }
{
    let s = next_row(rows, r);
    if !owns_struct(rows, r) {
        return s;
    }
    past_rows(rows, next_row(rows, s), word(rows, s, row::COUNT) as usize)
}

// The row after all that belongs to row r.
pub fn past_children(rows: &[u32], r: usize) -> usize
    requires { Countable r }
    ensures { result ≡ past_children rows.now r }
{
    past_rows(rows, first_child(rows, r), child_count(rows, r))
}
