// What a program lends, and the words that a count of rows or records stands for.
ghost use Rattle.std.specs.Prelude.{◌+◌, ◌*◌, ◌≤◌, min, ◌≡◌, [], length};
ghost use Rattle.grammar.specs.Limits.{schema_bytes};

use lines::decimals::{NUMBER_ROOM, WORD_ROOM};
use lines::page::Page;
use rules::{MESSAGE_BYTES, RECORD_WORDS, ROW_WORDS, SCHEMA_BYTES, TABLE_ROWS};

// A byte more than each limit, so that what is longer is seen to be longer.
const SCHEMA_ROOM: usize = SCHEMA_BYTES + 1;

pub const LINE_ROOM: usize = MESSAGE_BYTES + 1;

// Words for all rows of a table, and for 4,096 records.
pub const TABLE_ROOM: usize = TABLE_ROWS * ROW_WORDS;

pub const RECORD_COUNT: usize = 4096;

pub const RECORD_ROOM: usize = RECORD_COUNT * RECORD_WORDS;

// The longest answer line: four numbers, then words. Answers have room for two.
pub const LONGEST_LINE: usize = 4 * NUMBER_ROOM + WORD_ROOM * RECORD_ROOM;

pub const OUT_ROOM: usize = 2 * LONGEST_LINE;

// Room for the schema.
pub fn schema_room() -> [u8; SCHEMA_ROOM]
    ensures { length result ≡ schema_bytes + 1 }
{
    [0; SCHEMA_ROOM]
}

// What is read of a line, cut beyond the room for it; the records of the last answer; and what is answered and not yet written.
// The programs have `LINE_ROOM` and `OUT_ROOM`.
#[derive(Drop)]
pub struct Rooms<const L: usize, const O: usize> {
    pub line: Page<L>,
    pub records: [u32; RECORD_ROOM],
    pub out: Page<O>,
}

impl<const L: usize, const O: usize> Rooms<L, O> {
    pub fn new() -> Self
        ensures { (result.line ≡ []) × (result.out ≡ []) }
    {
        Rooms {
            line: Page::new(),
            records: [0; RECORD_ROOM],
            out: Page::new(),
        }
    }
}

// How many words so many rows or records have, of those lent.
pub fn words_of(count: usize, width: usize, lent: usize) -> usize
    ensures { (result ≡ min (width * count) lent) × (result ≤ lent) }
{
    width.saturating_mul(count).min(lent)
}
