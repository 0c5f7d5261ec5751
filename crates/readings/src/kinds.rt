// JSON kinds of values, and the built-in types that take them.
ghost use Rattle.std.specs.Prelude.{◌≡◌};
ghost use Rattle.builtins.specs.Kinds.{kind_as};
ghost use Rattle.readings.specs.Parts.{kind_of_node, NumberFits, BuiltInTakes};

use builtins::json::JsonKind;
use builtins::kinds::takes;
use builtins::ranges::range_of;
use text::nodes::{NODE_END, NODE_KIND, NODE_START, node_number, node_word};
use tokens::integers::in_range;
use tokens::node;

// The JSON kind of a node's kind.
pub fn json_kind(kind: u32) -> Option<JsonKind>
    ensures { kind_as result ≡ kind_of_node kind }
{
    match kind {
        node::NULL => Some(JsonKind::Null),
        node::FALSE => Some(JsonKind::Boolean),
        node::TRUE => Some(JsonKind::Boolean),
        node::INTEGER => Some(JsonKind::Number),
        node::OTHER_NUMBER => Some(JsonKind::Number),
        node::PLAIN_STRING => Some(JsonKind::String),
        node::OTHER_STRING => Some(JsonKind::String),
        node::ARRAY => Some(JsonKind::Array),
        node::OBJECT => Some(JsonKind::Object),
        _ => None,
    }
}

// Whether the number at node k fits the range of built-in b.
fn number_fits(m: &[u8], nodes: &[u32], k: usize, b: usize) -> bool
    ensures { NumberFits m.now nodes.now k b result }
{
    let Some(range) = range_of(b) else {
        return true;
    };
    if node_word(nodes, k, NODE_KIND) != node::INTEGER {
        return false;
    }
    let a = node_number(nodes, k, NODE_START);
    let e = node_number(nodes, k, NODE_END);
    in_range(m, a, e, range.below, range.above)
}

// Whether built-in b takes the value at node k: the grid, and the range of a number.
pub fn built_in_takes(m: &[u8], nodes: &[u32], k: usize, b: usize) -> bool
    ensures { BuiltInTakes m.now nodes.now k b result }
{
    let kind = json_kind(node_word(nodes, k, NODE_KIND));
    if !takes(b, kind) {
        return false;
    }
    if kind != Some(JsonKind::Number) {
        return true;
    }
    number_fits(m, nodes, k, b)
}
