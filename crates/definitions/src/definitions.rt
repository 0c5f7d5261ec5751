// Definitions out of nodes, by the table of keys, as rows in which a name that refers is one word.
ghost use Rattle.std.specs.Prelude.{◌<◌};
ghost use Rattle.definitions.specs.Puts.{PutsDefinitions};
ghost use Rattle.definitions.specs.Written.{node_bound, definition_rows, PutsRows};
ghost use Rattle.definitions.specs.Parts.{FindsKind, KindAt, DefinitionAt};

use crate::bodies::{put_command, put_list, put_struct, put_union};
use crate::source::{Source, value_at};
use crate::writing::NotDefinitions;
use lookups::values::is_string;
use rules::kind;
use text::nodes::{NODE_KIND, NODE_NEXT, node_number, node_word};
use tokens::node;

// The row kind that a kind key says, and the node of its value.
#[derive(Clone, Copy)]
pub struct KindKey {
    pub kind: u32,
    pub node: usize,
}

// The kind key of the object at node k, if it has one. With two of them, one is outside the other's keys.
fn kind_key(source: &Source, k: usize) -> Option<KindKey>
    ensures { FindsKind source.now.bytes.now source.now.nodes.now k result }
{
    if let Some(node) = value_at(source, k, b"enum") {
        let kind = kind::ENUM;
        return Some(KindKey { kind, node });
    }
    if let Some(node) = value_at(source, k, b"struct") {
        let kind = kind::STRUCT;
        return Some(KindKey { kind, node });
    }
    if let Some(node) = value_at(source, k, b"union") {
        let kind = kind::UNION;
        return Some(KindKey { kind, node });
    }
    if let Some(node) = value_at(source, k, b"alternate") {
        let kind = kind::ALTERNATE;
        return Some(KindKey { kind, node });
    }
    if let Some(node) = value_at(source, k, b"command") {
        let kind = kind::COMMAND;
        return Some(KindKey { kind, node });
    }
    None
}

// The definition of that row kind whose name is the value at node v.
fn put_kind(
    source: &Source,
    k: usize,
    kind: u32,
    v: usize,
    rows: &mut [u32],
    n: usize,
) -> Result<usize, NotDefinitions>
    requires { n < node_bound }
    ensures { PutsRows (KindAt source.now.bytes.now source.now.nodes.now kind k v n) rows.old rows.new n definition_rows result }
{
    if !is_string(source.nodes, v) {
        return Err(NotDefinitions);
    }
    match kind {
        kind::ENUM => put_list(source, k, v, rows, n, kind::ENUM),
        kind::STRUCT => put_struct(source, k, v, rows, n),
        kind::UNION => put_union(source, k, v, rows, n),
        kind::ALTERNATE => put_list(source, k, v, rows, n, kind::ALTERNATE),
        _ => put_command(source, k, v, rows, n),
    }
}

// The definition that is the value at node k, from row n on.
fn put_definition(
    source: &Source,
    k: usize,
    rows: &mut [u32],
    n: usize,
) -> Result<usize, NotDefinitions>
    requires { n < node_bound }
    ensures { PutsRows (DefinitionAt source.now.bytes.now source.now.nodes.now k n) rows.old rows.new n definition_rows result }
{
    if node_word(source.nodes, k, NODE_KIND) != node::OBJECT {
        return Err(NotDefinitions);
    }
    let Some(key) = kind_key(source, k) else {
        return Err(NotDefinitions);
    };
    put_kind(source, k, key.kind, key.node, rows, n)
}

// The definitions of the objects from node 0 up to `count`, from row 0 on: how many rows they have. Each row comes from a node of its own.
pub fn put_definitions(
    s: &[u8],
    nodes: &[u32],
    count: usize,
    rows: &mut [u32],
) -> Result<usize, NotDefinitions>
    requires { count < node_bound }
    ensures { PutsDefinitions s.now nodes.now rows.old rows.new count result }
{
    let source = Source { bytes: s, nodes };
    let mut k = 0;
    let mut n = 0;
    while k < count {
        let m = put_definition(&source, k, rows, n)?;
        let next = node_number(nodes, k, NODE_NEXT);
        if next <= k {
            return Err(NotDefinitions);
        }
        if next < m {
            return Err(NotDefinitions);
        }
        k = next;
        n = m;
    }
    Ok(n)
}
