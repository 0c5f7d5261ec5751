// The structs whose members an object has at a type.
ghost use Rattle.std.specs.Prelude.{◌≡◌, ◌-◌};
ghost use Rattle.rows.specs.Rows.{Near};
ghost use Rattle.members.specs.Members.{StructsAt, BranchOf};

use builtins::FIRST_REFERENCE;
use children::lists::child_meant;
use lookups::values::{is_string, value_at};
use rows::names::name_of;
use rows::rows::{wide, word};
use rules::{kind, row};
use strings::dialects::Dialect;

// The type reference of a command without data.
const NO_TYPE: u32 = 0;

// The row that a link is to; 0 for none.
fn row_of(link: u32) -> usize
    ensures { result ≡ link - 1 }
{
    if link == 0 {
        return 0;
    }
    wide(link - 1)
}

// The links of the structs whose members an object has, a union's base and its branch's, 0 for no struct; or no object is read there.
#[derive(Clone, Copy)]
pub enum Structs {
    Links(u32, u32),
    NoObject,
}

// The base of the union at row r and the branch that the object at node k chooses, wherever its discriminator stands.
fn branch_of(
    schema: &[u8],
    rows: &[u32],
    m: &[u8],
    nodes: &[u32],
    index: &[u32],
    r: usize,
    k: usize,
) -> Structs
    requires { Near r }
    ensures { BranchOf schema.now rows.now m.now nodes.now index.now r k result }
{
    let discriminator = row_of(word(rows, r, row::DISCRIMINATOR));
    let name = name_of(schema, rows, discriminator);
    let Some(v) = value_at(m, Dialect::Message, nodes, k, name) else {
        return Structs::NoObject;
    };
    if !is_string(nodes, v) {
        return Structs::NoObject;
    }
    let b = child_meant(schema, rows, m, nodes, index, r, v);
    let base = word(rows, r, row::UNION_BASE);
    if b == 0 {
        return Structs::Links(base, 0);
    }
    Structs::Links(base, word(rows, b - 1, row::BRANCH_STRUCT))
}

// The structs for the object at node k at the type reference t; none of them has a member where there is no type.
pub fn structs_at(
    schema: &[u8],
    rows: &[u32],
    m: &[u8],
    nodes: &[u32],
    index: &[u32],
    k: usize,
    t: u32,
) -> Structs
    ensures { StructsAt schema.now rows.now m.now nodes.now index.now k t result }
{
    if t == NO_TYPE {
        return Structs::Links(0, 0);
    }
    if t < FIRST_REFERENCE {
        return Structs::NoObject;
    }
    let row = t - FIRST_REFERENCE;
    let r = wide(row);
    match word(rows, r, row::KIND) {
        kind::STRUCT => Structs::Links(row + 1, 0),
        kind::UNION => branch_of(schema, rows, m, nodes, index, r, k),
        _ => Structs::NoObject,
    }
}
