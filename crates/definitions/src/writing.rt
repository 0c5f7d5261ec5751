// Rows as they are written, in lent words: only whole rows within the room.
ghost use Rattle.definitions.specs.Written.{RowPut};
ghost use Rattle.definitions.specs.Places.{NamedRow};

use crate::values::{name_size, name_start};
use rules::{ROW_WORDS, row};

// The schema breaks the table of keys.
#[derive(Clone, Copy, PartialEq, Eq)]
pub struct NotDefinitions;

// A row of that kind with the name at node k, but for its first `skip` bytes; its other words are 0.
pub fn named_row(nodes: &[u32], k: usize, skip: u32, kind: u32) -> [u32; ROW_WORDS]
    ensures { NamedRow nodes.now k skip kind result }
{
    let mut own = [0u32; ROW_WORDS];
    own[row::KIND] = kind;
    own[row::START] = name_start(nodes, k, skip);
    own[row::SIZE] = name_size(nodes, k, skip);
    own
}

// Row n, where all of it fits. Rows and their number stay two parameters: a row is put under those after it, so a writer that appends is no plainer.
pub fn put_row(rows: &mut [u32], n: usize, own: &[u32; ROW_WORDS])
    ensures { RowPut rows.old rows.new n own.now }
{
    if n < rows.len() / ROW_WORDS {
        let at = ROW_WORDS * n;
        rows[at..at + ROW_WORDS].copy_from_slice(own);
    }
}
