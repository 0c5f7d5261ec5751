// A definition of each kind: its keys' values, its row and the rows after it. The object stands at node k, its name at node v;
// where v is 0, the kind's own key is absent.
// A key that isn't the kind's is refused.
ghost use Rattle.std.specs.Prelude.{◌<◌, ◌≡◌, ◌⊎◌};
ghost use Rattle.rules.specs.Kinds.{enum_kind, struct_kind, union_kind, alternate_kind, command_kind};
ghost use Rattle.definitions.specs.Places.{if_any};
ghost use Rattle.definitions.specs.Written.{node_bound, definition_rows, PutsRows};
ghost use Rattle.definitions.specs.Parts.{keys_of_kind, BodyAt, UnionAt, CommandAt};

use crate::lists::{put_children, put_counted, put_inline};
use crate::shapes::{TypeText, base_fits, data_link, take_flag, take_return};
use crate::source::{Source, value_at};
use crate::values::name_word;
use crate::writing::{NotDefinitions, named_row, put_row};
use lookups::counts::no_others;
use lookups::values::is_string;
use rules::{kind, row};

// The node of that number; 0 is nowhere.
fn if_any(v: usize) -> Option<usize>
    ensures { result ≡ if_any v }
{
    match v {
        0 => None,
        _ => Some(v),
    }
}

// An enum or an alternate: a list and nothing else.
pub fn put_list(
    source: &Source,
    k: usize,
    v: usize,
    rows: &mut [u32],
    n: usize,
    kind: u32,
) -> Result<usize, NotDefinitions>
    requires { (n < node_bound) × ((kind ≡ enum_kind) ⊎ (kind ≡ alternate_kind)) }
    ensures { PutsRows (BodyAt source.now.bytes.now source.now.nodes.now (keys_of_kind kind) k v n) rows.old rows.new n definition_rows result }
{
    let d = value_at(source, k, b"data");
    if !no_others(source.nodes, k, &[if_any(v), d]) {
        return Err(NotDefinitions);
    }
    put_counted(source, d, rows, n, named_row(source.nodes, v, 0, kind))
}

pub fn put_struct(
    source: &Source,
    k: usize,
    v: usize,
    rows: &mut [u32],
    n: usize,
) -> Result<usize, NotDefinitions>
    requires { n < node_bound }
    ensures { PutsRows (BodyAt source.now.bytes.now source.now.nodes.now (keys_of_kind struct_kind) k v n) rows.old rows.new n definition_rows result }
{
    let d = value_at(source, k, b"data");
    let b = value_at(source, k, b"base");
    if !no_others(source.nodes, k, &[if_any(v), d, b]) {
        return Err(NotDefinitions);
    }
    if !base_fits(source.nodes, b) {
        return Err(NotDefinitions);
    }
    let mut own = named_row(source.nodes, v, 0, kind::STRUCT);
    own[row::BASE] = data_link(source.nodes, b, n);
    put_counted(source, d, rows, n, own)
}

// The rows of a union whose base, discriminator and branches stand at nodes b, t and d.
fn put_union_rows(
    source: &Source,
    v: usize,
    b: usize,
    t: usize,
    d: Option<usize>,
    rows: &mut [u32],
    n: usize,
) -> Result<usize, NotDefinitions>
    requires { n < node_bound }
    ensures { PutsRows (UnionAt source.now.bytes.now source.now.nodes.now v b t d n) rows.old rows.new n definition_rows result }
{
    let first = put_inline(source, Some(b), rows, n + 1)?;
    let m = put_children(source, d, kind::BRANCH, rows, first)?;
    let mut own = named_row(source.nodes, v, 0, kind::UNION);
    own[row::UNION_BASE] = data_link(source.nodes, Some(b), n);
    own[row::BRANCH_COUNT] = (m - first) as u32;
    own[row::DISCRIMINATOR] = name_word(source.nodes, t);
    put_row(rows, n, &own);
    Ok(m)
}

pub fn put_union(
    source: &Source,
    k: usize,
    v: usize,
    rows: &mut [u32],
    n: usize,
) -> Result<usize, NotDefinitions>
    requires { n < node_bound }
    ensures { PutsRows (BodyAt source.now.bytes.now source.now.nodes.now (keys_of_kind union_kind) k v n) rows.old rows.new n definition_rows result }
{
    let b = value_at(source, k, b"base");
    let t = value_at(source, k, b"discriminator");
    let d = value_at(source, k, b"data");
    if !no_others(source.nodes, k, &[if_any(v), b, t, d]) {
        return Err(NotDefinitions);
    }
    let Some(base) = b else {
        return Err(NotDefinitions);
    };
    let Some(discriminator) = t else {
        return Err(NotDefinitions);
    };
    if !is_string(source.nodes, discriminator) {
        return Err(NotDefinitions);
    }
    put_union_rows(source, v, base, discriminator, d, rows, n)
}

// The rows of a command whose data stands at node d, by what it returns and whether it may be out of band.
fn put_command_rows(
    source: &Source,
    v: usize,
    d: Option<usize>,
    rows: &mut [u32],
    n: usize,
    returns: TypeText,
    oob: bool,
) -> Result<usize, NotDefinitions>
    requires { n < node_bound }
    ensures { PutsRows (CommandAt source.now.bytes.now source.now.nodes.now v d n oob returns) rows.old rows.new n definition_rows result }
{
    let m = put_inline(source, d, rows, n + 1)?;
    let mut own = named_row(source.nodes, v, 0, kind::COMMAND);
    own[row::DATA_STRUCT] = data_link(source.nodes, d, n);
    own[row::ALLOW_OOB] = oob as u32;
    own[row::RETURNS] = returns.name;
    own[row::RETURNS_ARRAY] = returns.list as u32;
    put_row(rows, n, &own);
    Ok(m)
}

pub fn put_command(
    source: &Source,
    k: usize,
    v: usize,
    rows: &mut [u32],
    n: usize,
) -> Result<usize, NotDefinitions>
    requires { n < node_bound }
    ensures { PutsRows (BodyAt source.now.bytes.now source.now.nodes.now (keys_of_kind command_kind) k v n) rows.old rows.new n definition_rows result }
{
    let d = value_at(source, k, b"data");
    let returns = value_at(source, k, b"returns");
    let flag = value_at(source, k, b"allow-oob");
    if !no_others(source.nodes, k, &[if_any(v), d, returns, flag]) {
        return Err(NotDefinitions);
    }
    // A type is taken by `let .. else`: the project's scope names this form (docs/DECISIONS.md).
    let Ok(t) = take_return(source.nodes, returns) else {
        return Err(NotDefinitions);
    };
    let oob = take_flag(source.nodes, flag)?;
    put_command_rows(source, v, d, rows, n, t, oob)
}
