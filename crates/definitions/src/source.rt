// What definitions are read out of: the bytes of a schema, and the nodes of its text.
ghost use Rattle.grammar.specs.Serving.Machine.Schema.{schema};
ghost use Rattle.lookups.specs.Lookups.{FindsValue};

use lookups::values;
use strings::dialects::Dialect;

#[derive(Clone, Copy)]
pub struct Source<'a> {
    pub bytes: &'a [u8],
    pub nodes: &'a [u32],
}

// The node of the value under a key of the object at node k, if it has the key.
pub fn value_at(source: &Source, k: usize, name: &[u8]) -> Option<usize>
    ensures { FindsValue schema source.now.bytes.now source.now.nodes.now k name.now result }
{
    values::value_at(source.bytes, Dialect::Schema, source.nodes, k, name)
}
