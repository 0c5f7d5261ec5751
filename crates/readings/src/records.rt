// Records in lent words: only whole ones within the room.
ghost use Rattle.std.specs.Prelude.{◌≡◌, [], ◌∷◌};
ghost use Rattle.readings.specs.Records.{put_record};

use words::put_item;

// Record n: its start, end, type reference, and 1 if it is an array.
pub fn put_record(records: &mut [u32], n: usize, start: u32, end: u32, t: u32, array: u32)
    ensures { records.new ≡ put_record records.old n (start ∷ end ∷ t ∷ array ∷ []) }
{
    put_item(records, n, [start, end, t, array]);
}
