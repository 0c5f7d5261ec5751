// The reader: a message and a place among its records, kept together. The records are handed to it at each ask.
ghost use Rattle.std.specs.Prelude.{◌≡◌};
ghost use Rattle.walker.specs.Seeing.{seen_at, moved};

use crate::records::{Record, place_after, record_at};

#[derive(Drop)]
pub struct Reader<'a> {
    pub message: &'a [u8],
    pub place: usize,
}

impl<'a> Reader<'a> {
    pub fn at(message: &'a [u8], place: usize) -> Reader<'a>
        ensures { (result.message ≡ message.entry) × (result.place ≡ place) }
    {
        Reader { message, place }
    }

    // The next whole record, and the place moves one on; or there is none, and it stays.
    pub fn next(&mut self, records: &[u32]) -> Option<Record>
        ensures { (result ≡ seen_at records.now self.old.place) × (self.new ≡ moved records.now self.old) }
    {
        let at = self.place;
        self.place = place_after(records, at);
        record_at(records, at)
    }
}
