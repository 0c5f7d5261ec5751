// Records of four words in a slice, and the part of the message that a record is about. Everything is total: any words may come.
ghost use Rattle.std.specs.Prelude.{◌≡◌};
ghost use Rattle.walker.specs.Seeing.{seen_at, place_after, part_of};

use rules::RECORD_WORDS;

// Where a value stands in the message, its type, and 1 for an array of it.
#[derive(Clone, Copy)]
pub struct Record {
    pub start: u32,
    pub end: u32,
    pub reference: u32,
    pub array: u32,
}

// The whole record with a number, counted from 0.
pub fn record_at(records: &[u32], n: usize) -> Option<Record>
    ensures { result ≡ seen_at records.now n }
{
    if records.len() / RECORD_WORDS <= n {
        return None;
    }
    let at = RECORD_WORDS * n;
    Some(Record {
        start: records[at],
        end: records[at + 1],
        reference: records[at + 2],
        array: records[at + 3],
    })
}

// The place after the record with a number; the same place where there is none.
pub fn place_after(records: &[u32], n: usize) -> usize
    ensures { result ≡ place_after records.now n }
{
    if n < records.len() / RECORD_WORDS {
        return n + 1;
    }
    n
}

// The bytes of the message from a start to an end, as far as there are any.
#[tactic(auto, unfolding(crate::specs::Seeing::part_of))]
pub fn part_of(message: &[u8], start: usize, end: usize) -> &[u8]
    ensures { result.now ≡ part_of message.now start end }
{
    let to = end.min(message.len());
    let from = start.min(to);
    &message[from..to]
}
