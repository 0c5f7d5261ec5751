// The envelope: execute or exec-oob, arguments, id, and no other key.
ghost use Rattle.std.specs.Prelude.{◌≡◌};
ghost use Rattle.message.specs.Envelopes.{call_of, proper_arguments, called_by, ReadsEnvelope};

use lookups::counts::no_others;
use lookups::values::{is_string, value_at};
use strings::dialects::Dialect;
use text::nodes::{NODE_KIND, node_word};
use tokens::node;

// The node of the command's name, whether it is out of band, and the node of the arguments, 0 if they are absent.
#[derive(Clone, Copy)]
pub enum Envelope {
    Call(usize, bool, usize),
    Improper,
}

// The call by the name at a node.
fn call(nodes: &[u32], name: usize, oob: bool, arguments: Option<usize>) -> Envelope
    ensures { result ≡ call_of nodes.now name oob arguments }
{
    if !is_string(nodes, name) {
        return Envelope::Improper;
    }
    Envelope::Call(name, oob, arguments.unwrap_or(0))
}

// Whether the arguments at a node are an object, unless they are absent.
fn are_proper(nodes: &[u32], arguments: Option<usize>) -> bool
    ensures { result ≡ proper_arguments nodes.now arguments }
{
    match arguments {
        Some(k) => node_word(nodes, k, NODE_KIND) == node::OBJECT,
        None => true,
    }
}

// What stands under the keys of an envelope, by the nodes of those that it has, as a call.
fn called(
    nodes: &[u32],
    execute: Option<usize>,
    oob: Option<usize>,
    arguments: Option<usize>,
) -> Envelope
    ensures { result ≡ called_by nodes.now execute oob arguments }
{
    if !are_proper(nodes, arguments) {
        return Envelope::Improper;
    }
    match (execute, oob) {
        (Some(name), None) => call(nodes, name, false, arguments),
        (None, Some(name)) => call(nodes, name, true, arguments),
        _ => Envelope::Improper,
    }
}

// What the message whose value stands at node 0 calls.
pub fn read_envelope(m: &[u8], nodes: &[u32]) -> Envelope
    ensures { ReadsEnvelope m.now nodes.now result }
{
    if node_word(nodes, 0, NODE_KIND) != node::OBJECT {
        return Envelope::Improper;
    }
    let execute = value_at(m, Dialect::Message, nodes, 0, b"execute");
    let oob = value_at(m, Dialect::Message, nodes, 0, b"exec-oob");
    let arguments = value_at(m, Dialect::Message, nodes, 0, b"arguments");
    let id = value_at(m, Dialect::Message, nodes, 0, b"id");
    if !no_others(nodes, 0, &[execute, oob, arguments, id]) {
        return Envelope::Improper;
    }
    called(nodes, execute, oob, arguments)
}
