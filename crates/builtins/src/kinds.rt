// The JSON kind of each built-in, and the grid of the kinds that it takes.
ghost use Rattle.std.specs.Prelude.{◌≡◌};
ghost use Rattle.builtins.specs.Kinds.{kind_as, built_in_kind, takes_if};

use crate::json::{JSON_KINDS, JsonKind, column};
use crate::{ANY, BOOL, NULL, NUMBER, SIZE, STR};

// The JSON kind of built-in b; `any` has none of its own, and no other number has one.
pub fn built_in_kind(b: usize) -> Option<JsonKind>
    ensures { kind_as result ≡ built_in_kind b }
{
    match b {
        STR => Some(JsonKind::String),
        NUMBER..=SIZE => Some(JsonKind::Number),
        BOOL => Some(JsonKind::Boolean),
        NULL => Some(JsonKind::Null),
        _ => None,
    }
}

// Which JSON kinds each built-in takes, from number 1 on, in the order of `json`: object, array, string, number, boolean, null.
const GRID: [[bool; JSON_KINDS]; ANY] = [
    [false, false, true, false, false, false],
    [false, false, false, true, false, false],
    [false, false, false, true, false, false],
    [false, false, false, true, false, false],
    [false, false, false, true, false, false],
    [false, false, false, true, false, false],
    [false, false, false, true, false, false],
    [false, false, false, true, false, false],
    [false, false, false, true, false, false],
    [false, false, false, true, false, false],
    [false, false, false, true, false, false],
    [false, false, false, true, false, false],
    [false, false, false, false, true, false],
    [false, false, false, false, false, true],
    [true, true, true, true, true, true],
];

// Whether built-in b takes the JSON kind k; no other number takes any, and where there is no kind none is taken.
pub fn takes(b: usize, k: Option<JsonKind>) -> bool
    ensures { result ≡ takes_if b k }
{
    let Some(kind) = k else {
        return false;
    };
    if b == 0 {
        return false;
    }
    if ANY < b {
        return false;
    }
    GRID[b - 1][column(kind)]
}
