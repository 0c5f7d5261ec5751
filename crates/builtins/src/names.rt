// The names of the built-ins.
ghost use Rattle.std.specs.Prelude.{◌≡◌, ◌-◌, ◌<◌, [], get_or};
ghost use Rattle.grammar.specs.Serving.TextTable.{joined_texts, bounds_from};
ghost use Rattle.rules.specs.Types.{built_ins, first_row};
ghost use Rattle.rules.specs.SchemaTable.{place_in};
ghost use Rattle.builtins.specs.Names.{if_any};

use crate::FIRST_ROW;
use rows::names::same_bytes;

// The bytes of all names.
const TEXT_BYTES: usize = 69;

// The names by number, one after another.
pub fn name_text() -> [u8; TEXT_BYTES]
    ensures { result ≡ joined_texts built_ins }
{
    *b"strnumberintint8int16int32int64uint8uint16uint32uint64sizeboolnullany"
}

// Where each name begins, and where the last ends.
pub fn name_bounds() -> [usize; FIRST_ROW]
    ensures { result ≡ bounds_from 0 built_ins }
{
    [0, 3, 9, 12, 16, 21, 26, 31, 36, 42, 48, 54, 58, 62, 66, 69]
}

// The name of built-in b, in the lent text by the lent bounds.
pub fn name_in<'a>(text: &'a [u8], bounds: &[usize; FIRST_ROW], b: usize) -> &'a [u8]
    requires { (text.now ≡ joined_texts built_ins) × (bounds.now ≡ bounds_from 0 built_ins) × (0 < b) × (b < first_row) }
    ensures { result.now ≡ get_or built_ins (b - 1) [] }
{
    let from = bounds[b - 1];
    let to = bounds[b];
    &text[from..to]
}

// The number of the built-in of that name.
pub fn built_in(name: &[u8]) -> Option<u32>
    ensures { result ≡ if_any (place_in built_ins name.now) }
{
    let text = name_text();
    let bounds = name_bounds();
    for b in 1..FIRST_ROW {
        if same_bytes(name, name_in(&text, &bounds, b)) {
            return Some(b as u32);
        }
    }
    None
}
