// The resolver: raw rows, in which names that refer are words that name them, become the table of the schema, in place.
#![tactic(auto)]

pub mod discriminators;
pub mod find;
pub mod slots;

ghost use Rattle.std.specs.Prelude.{◌<◌, ◌^◌, length};
ghost use Rattle.table.specs.Definitions.{DefinitionIndex};
ghost use Rattle.references.specs.Resolves.{Resolves};

use crate::discriminators::put_discriminators;
use crate::find::DefinitionNames;
use crate::slots::resolve_rows;
use buckets::BUCKETS;

// Resolves raw rows by the index of their definitions; tells whether every name found its row.
pub fn resolve(s: &[u8], rows: &mut [u32], heads: &[u32; BUCKETS], links: &[u32]) -> bool
    requires { (length rows.old < 2 ^ 32) × DefinitionIndex s.now rows.old heads.now links.now }
    ensures { Resolves s.now rows.old rows.new result }
{
    let names = DefinitionNames {
        schema: s,
        heads,
        links,
    };
    let all = resolve_rows(&names, rows);
    put_discriminators(s, rows);
    all
}
