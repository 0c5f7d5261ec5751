// By which type a value is read: the one given, or one alternative of an alternate.
ghost use Rattle.std.specs.Prelude.{◌≡◌};
ghost use Rattle.rules.specs.Rows.{children};
ghost use Rattle.rules.specs.Serving.ReadingOf.{of_kind, from_alternatives};
ghost use Rattle.rows.specs.Rows.{Near};
ghost use Rattle.builtins.specs.Kinds.{kind_in};
ghost use Rattle.readings.specs.Parts.{choice_as, TypeFor};

use crate::kinds::json_kind;
use builtins::FIRST_REFERENCE;
use builtins::json::JsonKind;
use rows::rows::word;
use rows::walk::children;
use rules::{kind, row};
use table::alternates::type_kind;
use text::nodes::{NODE_KIND, node_word};

#[derive(Clone, Copy)]
pub enum Choice {
    Itself,
    Alternative(u32),
    NoAlternative,
}

// The first alternative of row r with the JSON kind k.
fn alternative(rows: &[u32], r: usize, k: JsonKind) -> Choice
    requires { Near r }
    ensures { choice_as result ≡ from_alternatives (of_kind rows.now (kind_in k) (children rows.now r)) }
{
    for i in children(rows, r) {
        let t = word(rows, i, row::TYPE_REF);
        if type_kind(rows, t as usize) == Some(k) {
            return Choice::Alternative(t);
        }
    }
    Choice::NoAlternative
}

// The type by which the value at node k is read, where it is asked for at the type reference t, as an array of it where `array` is 1.
pub fn type_for(rows: &[u32], nodes: &[u32], k: usize, t: u32, array: u32) -> Choice
    ensures { TypeFor rows.now nodes.now k t array result }
{
    if array != 0 {
        return Choice::Itself;
    }
    if t < FIRST_REFERENCE {
        return Choice::Itself;
    }
    let r = (t - FIRST_REFERENCE) as usize;
    if word(rows, r, row::KIND) != kind::ALTERNATE {
        return Choice::Itself;
    }
    match json_kind(node_word(nodes, k, NODE_KIND)) {
        Some(kind) => alternative(rows, r, kind),
        None => Choice::NoAlternative,
    }
}
