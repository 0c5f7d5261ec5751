// The records of a message as lines of a tree, by one reader that is asked for record after record.
ghost use Rattle.std.specs.Prelude.{◌+◌, ◌≤◌, ◌≡◌, [], length, IfOk, IfErr};
ghost use Rattle.trees.specs.Serving.Rooms.{line_room};
ghost use Rattle.trees.specs.Serving.Asks.{One};
ghost use Rattle.console.specs.Program.{record_count};
ghost use Rattle.console.specs.Serving.Shows.{Shows};

use crate::rooms::RECORD_COUNT;
use lines::page::Page;
use std::io;
use std::io::Print;
use trees::depth::Around;
use trees::tree::{LINE_ROOM, Tree, put_record};
use walker::reader::Reader;

// Puts the line of the next record, and writes what is put where there is no room for another line. Whether there was a record.
fn show_next<R: Print, const M: usize, const N: usize>(
    rt: &R,
    tree: &Tree,
    reader: &mut Reader,
    around: &mut Around<M>,
    out: &mut Page<N>,
) -> io::Result<bool>
    requires { (M ≡ record_count) × (length out.old + line_room ≤ N) }
    ensures shows { IfOk result (λ on. Shows tree.now.types.schema.now tree.now.types.table.now tree.now.message.now tree.now.records.now M N reader.old.place around.old out.old reader.new.place around.new out.new on) }
    ensures unwritten { IfErr result (λ _. One tree.now.types.schema.now tree.now.types.table.now tree.now.message.now tree.now.records.now M reader.old.place around.old out.old out.new reader.new.place around.new) }
{
    let n = reader.place;
    let seen = reader.next(tree.records);
    put_record(tree, n, seen, around, out);
    match seen {
        None => Ok(false),
        Some(_) => {
            if LINE_ROOM <= out.left() {
                return Ok(true);
            }
            rt.write_all(out.bytes())?;
            out.clear();
            Ok(true)
        }
    }
}

// Writes what is put, and a line for every record, one after another, until the reader has none left.
pub fn show_records<R: Print, const N: usize>(
    rt: &R,
    tree: &Tree,
    out: &mut Page<N>,
) -> io::Result<()>
    requires { length out.old + line_room ≤ N }
    ensures { IfOk result (λ _. out.new ≡ []) }
{
    let mut reader = Reader::at(tree.message, 0);
    let mut around = Around::<RECORD_COUNT>::new();
    while show_next(rt, tree, &mut reader, &mut around, out)? {}
    rt.write_all(out.bytes())?;
    out.clear();
    Ok(())
}
