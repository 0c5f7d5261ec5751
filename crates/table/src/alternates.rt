// Alternates: rule 10.
ghost use Rattle.std.specs.Prelude.{◌≡◌};
ghost use Rattle.rules.specs.Rows.{children, type_kind};
ghost use Rattle.rules.specs.Rules.{alternate_fits};
ghost use Rattle.rows.specs.Rows.{Near};
ghost use Rattle.builtins.specs.Kinds.{kind_as};
ghost use Rattle.table.specs.RuleParts.{kind_of_row};
ghost use Rattle.table.specs.Looks.{stands_beside, Looked, Looking};
ghost use Rattle.table.specs.Alternatives.{ByKind, types_apart};

use crate::looks::{Like, type_looks};
use builtins::FIRST_ROW;
use builtins::json::{JSON_KINDS, JsonKind, column};
use builtins::kinds::built_in_kind;
use rows::rows::word;
use rows::walk::children;
use rules::{kind, row};

// The columns of three kinds.
const STRING: usize = JsonKind::String as usize;

const NUMBER: usize = JsonKind::Number as usize;

const BOOLEAN: usize = JsonKind::Boolean as usize;

// The JSON kind of a type.
pub fn type_kind(rows: &[u32], t: usize) -> Option<JsonKind>
    ensures { kind_as result ≡ type_kind rows.now t }
{
    if t < FIRST_ROW {
        return built_in_kind(t);
    }
    row_kind(word(rows, t - FIRST_ROW, row::KIND))
}

// The JSON kind of a type's row kind.
fn row_kind(k: u32) -> Option<JsonKind>
    ensures { kind_as result ≡ kind_of_row k }
{
    match k {
        kind::ENUM => Some(JsonKind::String),
        kind::STRUCT => Some(JsonKind::Object),
        kind::UNION => Some(JsonKind::Object),
        _ => None,
    }
}

// The types of the alternatives of row r by their JSON kinds, 0 for none, if each has a kind and no two the same.
fn types_by_kind(rows: &[u32], r: usize) -> Option<[u32; JSON_KINDS]>
    requires { Near r }
    ensures { ByKind rows.now (children rows.now r) result }
{
    let mut types = [0; JSON_KINDS];
    for i in children(rows, r) {
        let t = word(rows, i, row::TYPE_REF);
        let place = column(type_kind(rows, t as usize)?);
        if types[place] != 0 {
            return None;
        }
        types[place] = t;
    }
    Some(types)
}

// Whether the type t of strings, 0 for none, may stand beside one of what they may look like, 0 for none.
fn stands_beside(
    schema: &[u8],
    rows: &[u32],
    words: &mut [u32],
    t: u32,
    other: u32,
    like: Like,
) -> bool
    requires { Looked schema.now rows.now words.old }
    ensures { Looking schema.now rows.now words.new (stands_beside schema.now rows.now like t other) result }
{
    if other == 0 {
        return true;
    }
    !type_looks(schema, rows, words, t as usize, like)
}

// Whether types of one alternate, by the columns of their kinds, may stand beside each other.
fn types_apart(schema: &[u8], rows: &[u32], words: &mut [u32], types: &[u32; JSON_KINDS]) -> bool
    requires { Looked schema.now rows.now words.old }
    ensures { Looking schema.now rows.now words.new (types_apart schema.now rows.now types.now) result }
{
    let t = types[STRING];
    if !stands_beside(schema, rows, words, t, types[NUMBER], Like::Number) {
        return false;
    }
    stands_beside(schema, rows, words, t, types[BOOLEAN], Like::Boolean)
}

// Whether alternate r has alternatives, each with a JSON kind of its own, of types that may stand beside each other.
pub fn alternate_fits(schema: &[u8], rows: &[u32], words: &mut [u32], r: usize) -> bool
    requires { Near r × Looked schema.now rows.now words.old }
    ensures { Looking schema.now rows.now words.new (alternate_fits schema.now rows.now r) result }
{
    if word(rows, r, row::COUNT) == 0 {
        return false;
    }
    let Some(types) = types_by_kind(rows, r) else {
        return false;
    };
    types_apart(schema, rows, words, &types)
}
