// A type by its name.
ghost use Rattle.std.specs.Prelude.{◌≡◌, ◌+◌, ◌≤◌, ◌<◌, [], ◌++◌, length, get_or};
ghost use Rattle.trees.specs.Serving.Rooms.{shown_room, type_room};
ghost use Rattle.trees.specs.Typing.{built_in_names, row_name, type_name, type_text};
ghost use Rattle.rules.specs.Types.{first_row};

use crate::shown::{SHOWN_ROOM, put_shown};
use builtins::FIRST_ROW;
use builtins::names::{name_bounds, name_in, name_text};
use lines::page::Page;
use rows::names::name_of;
use rows::rows::word;
use rules::{kind, row};

// Room for a type's name in brackets.
pub const TYPE_ROOM: usize = SHOWN_ROOM + 2;

// The types that a reference can be to: those of a schema, by its table, and the built-ins.
#[derive(Clone, Copy)]
pub struct Types<'a> {
    pub schema: &'a [u8],
    pub table: &'a [u32],
}

// A type reference that is to no row, by its name; 0 is that of a command without data.
#[tactic(auto, using(std::proofs::lemmas::Grind::common_steps, crate::proofs::TypeLaws::built_in_named, crate::proofs::TypeLaws::built_in_length))]
fn put_built_in<const N: usize>(t: usize, out: &mut Page<N>)
    requires { (t < first_row) × (length out.old + shown_room ≤ N) }
    ensures puts { out.new ≡ out.old ++ get_or built_in_names t [] }
    ensures upper_bound { length out.new ≤ length out.old + shown_room }
{
    if t == 0 {
        out.put(b"(none)");
        return;
    }
    let text = name_text();
    let bounds = name_bounds();
    out.put(name_in(&text, &bounds, t));
}

impl<'a> Types<'a> {
    #[tactic(auto, using(std::proofs::lemmas::Grind::common_steps, crate::proofs::TypeLaws::row_named, crate::proofs::TypeLaws::row_inline, crate::proofs::TypeLaws::row_unknown))]
    fn put_row<const N: usize>(&self, r: usize, out: &mut Page<N>)
        requires { length out.old + shown_room ≤ N }
        ensures puts { out.new ≡ out.old ++ row_name self.now.schema.now self.now.table.now r }
        ensures upper_bound { length out.new ≤ length out.old + shown_room }
    {
        let name = name_of(self.schema, self.table, r);
        if name.len() != 0 {
            put_shown(out, name);
        } else if word(self.table, r, row::KIND) == kind::STRUCT {
            out.put(b"(inline)");
        } else {
            out.put(b"(unknown)");
        }
    }

    #[tactic(auto, using(std::proofs::lemmas::Grind::common_steps, crate::proofs::TypeLaws::name_below, crate::proofs::TypeLaws::name_above))]
    fn put_name<const N: usize>(&self, reference: usize, out: &mut Page<N>)
        requires { length out.old + shown_room ≤ N }
        ensures puts { out.new ≡ out.old ++ type_name self.now.schema.now self.now.table.now reference }
        ensures upper_bound { length out.new ≤ length out.old + shown_room }
    {
        if reference < FIRST_ROW {
            put_built_in(reference, out);
        } else {
            self.put_row(reference - FIRST_ROW, out);
        }
    }

    // A type reference, in brackets if the flag says array.
    #[tactic(auto, using(std::proofs::lemmas::Grind::common_steps, crate::proofs::TypeLaws::type_plain, crate::proofs::TypeLaws::type_array, crate::proofs::TypeLaws::name_length))]
    pub fn put_type<const N: usize>(&self, reference: u32, array: u32, out: &mut Page<N>)
        requires { length out.old + type_room ≤ N }
        ensures puts { out.new ≡ out.old ++ type_text self.now.schema.now self.now.table.now reference array }
        ensures upper_bound { length out.new ≤ length out.old + type_room }
    {
        if array == 0 {
            self.put_name(reference as usize, out);
            return;
        }
        out.put(b"[");
        self.put_name(reference as usize, out);
        out.put(b"]");
    }
}
