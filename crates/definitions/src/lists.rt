// The children that a value lists, as rows: values of an enum, members, branches, alternatives.
ghost use Rattle.std.specs.Prelude.{ℕ, ◌^◌, ◌<◌, List, ◌≡◌, cond, eqb, get_or};
ghost use Rattle.rules.specs.Kinds.{value_kind, alternative_kind};
ghost use Rattle.tokens.specs.NodeKinds.{array_node, object_node};
ghost use Rattle.definitions.specs.Written.{list_bound, children_bound, child_bound, PutsRows};
ghost use Rattle.definitions.specs.Parts.{ValueAt, FieldAt, member_field, pair_field, ChildAt, ChildrenAt, CountedAt, InlineAt};

use crate::shapes::read_type;
use crate::source::Source;
use crate::values::{name_word, star};
use crate::writing::{NotDefinitions, named_row, put_row};
use lookups::values::is_string;
use rules::{ROW_WORDS, kind, row};
use text::nodes::{NODE_KIND, NODE_NEXT, node_word};
use tokens::node;

// The string at node a, as a value of an enum.
fn put_value(nodes: &[u32], a: usize, rows: &mut [u32], n: usize) -> Result<usize, NotDefinitions>
    requires { n < child_bound }
    ensures { (s : List ℕ) → PutsRows (ValueAt s nodes.now a) rows.old rows.new n 1 result }
{
    if !is_string(nodes, a) {
        return Err(NotDefinitions);
    }
    put_row(rows, n, &named_row(nodes, a, 0, kind::VALUE));
    Ok(n + 1)
}

// The member whose key stands at node a; a `*` in front of the key is no part of its name.
fn put_member(
    source: &Source,
    a: usize,
    rows: &mut [u32],
    n: usize,
) -> Result<usize, NotDefinitions>
    requires { (a < child_bound) × (n < child_bound) }
    ensures { PutsRows (FieldAt source.now.bytes.now source.now.nodes.now member_field a) rows.old rows.new n 1 result }
{
    // A type is taken by `let .. else`: the project's scope names this form (docs/DECISIONS.md).
    let Ok(t) = read_type(source.nodes, a + 1) else {
        return Err(NotDefinitions);
    };
    let optional = star(source, a) as u32;
    let mut own = named_row(source.nodes, a, optional, kind::MEMBER);
    own[row::TYPE_REF] = t.name;
    own[row::ARRAY_MARK] = t.list as u32;
    own[row::OPTIONAL] = optional;
    put_row(rows, n, &own);
    Ok(n + 1)
}

// The branch or alternative whose key stands at node a.
fn put_pair(
    nodes: &[u32],
    a: usize,
    kind: u32,
    rows: &mut [u32],
    n: usize,
) -> Result<usize, NotDefinitions>
    requires { (a < child_bound) × (n < child_bound) }
    ensures { (s : List ℕ) → PutsRows (FieldAt s nodes.now (pair_field kind) a) rows.old rows.new n 1 result }
{
    let b = a + 1;
    if !is_string(nodes, b) {
        return Err(NotDefinitions);
    }
    let mut own = named_row(nodes, a, 0, kind);
    own[row::TYPE_REF] = name_word(nodes, b);
    put_row(rows, n, &own);
    Ok(n + 1)
}

fn put_child(
    source: &Source,
    a: usize,
    kind: u32,
    rows: &mut [u32],
    n: usize,
) -> Result<usize, NotDefinitions>
    requires { (a < child_bound) × (n < child_bound) }
    ensures { PutsRows (ChildAt source.now.bytes.now source.now.nodes.now kind a) rows.old rows.new n 1 result }
{
    match kind {
        kind::VALUE => put_value(source.nodes, a, rows, n),
        kind::MEMBER => put_member(source, a, rows, n),
        _ => put_pair(source.nodes, a, kind, rows, n),
    }
}

// The kind of the node that lists them: an array or an object.
fn list_kind(kind: u32) -> u32
    ensures { result ≡ cond (eqb kind value_kind) array_node object_node }
{
    if kind == kind::VALUE {
        node::ARRAY
    } else {
        node::OBJECT
    }
}

// The children that a value lists, by its node, from row n on; there must be one.
pub fn put_children(
    source: &Source,
    list: Option<usize>,
    kind: u32,
    rows: &mut [u32],
    n: usize,
) -> Result<usize, NotDefinitions>
    requires { n < children_bound }
    ensures { PutsRows (ChildrenAt source.now.bytes.now source.now.nodes.now kind list) rows.old rows.new n 0xFFFF_FFFF result }
{
    let Some(k) = list else {
        return Err(NotDefinitions);
    };
    if node_word(source.nodes, k, NODE_KIND) != list_kind(kind) {
        return Err(NotDefinitions);
    }
    let end = node_word(source.nodes, k, NODE_NEXT) as usize;
    if end <= k {
        return Err(NotDefinitions);
    }
    let mut a = k + 1;
    let mut m = n;
    while a < end {
        let more = put_child(source, a, kind, rows, m)?;
        let next = node_word(source.nodes, a, NODE_NEXT) as usize;
        if next <= a {
            return Err(NotDefinitions);
        }
        m = more;
        a = next;
    }
    Ok(m)
}

// A row that counts its children, and these, which a value lists, by its node. Their kind is the next one.
pub fn put_counted(
    source: &Source,
    list: Option<usize>,
    rows: &mut [u32],
    n: usize,
    mut own: [u32; ROW_WORDS],
) -> Result<usize, NotDefinitions>
    requires { (n < list_bound) × (get_or own 0 0 < alternative_kind) }
    ensures { PutsRows (CountedAt source.now.bytes.now source.now.nodes.now own list) rows.old rows.new n (2 ^ 32) result }
{
    let first = n + 1;
    let m = put_children(source, list, own[row::KIND] + 1, rows, first)?;
    own[row::COUNT] = (m - first) as u32;
    put_row(rows, n, &own);
    Ok(m)
}

// The inline struct of a base or of data, by its node, from row n on; none where that is a name or absent.
pub fn put_inline(
    source: &Source,
    value: Option<usize>,
    rows: &mut [u32],
    n: usize,
) -> Result<usize, NotDefinitions>
    requires { n < list_bound }
    ensures { PutsRows (InlineAt source.now.bytes.now source.now.nodes.now value) rows.old rows.new n (2 ^ 32) result }
{
    let Some(k) = value else {
        return Ok(n);
    };
    if is_string(source.nodes, k) {
        return Ok(n);
    }
    let mut own = [0u32; ROW_WORDS];
    own[row::KIND] = kind::STRUCT;
    put_counted(source, value, rows, n, own)
}
