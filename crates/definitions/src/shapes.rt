// The shapes of values: a type, a flag, a base or data. Any node may be asked.
ghost use Rattle.std.specs.Prelude.{◌<◌};
ghost use Rattle.definitions.specs.Written.{node_bound};
ghost use Rattle.definitions.specs.Places.{ReadsList, ReadsType, TakesReturn, TakesFlag, Links, BaseFits};

use crate::values::name_word;
use crate::writing::NotDefinitions;
use lookups::values::is_string;
use text::nodes::{NODE_KIND, NODE_NEXT, node_number, node_word};
use tokens::node;

// A type by the word of its name, and whether it is a list.
#[derive(Clone, Copy)]
pub struct TypeText {
    pub name: u32,
    pub list: bool,
}

// The value at node k, no string, as a type.
fn list_type(nodes: &[u32], k: usize) -> Result<TypeText, NotDefinitions>
    ensures { ReadsList nodes.now k result }
{
    if node_word(nodes, k, NODE_KIND) != node::ARRAY {
        return Err(NotDefinitions);
    }
    let end = node_number(nodes, k, NODE_NEXT);
    if end <= k {
        return Err(NotDefinitions);
    }
    let first = k + 1;
    if !is_string(nodes, first) {
        return Err(NotDefinitions);
    }
    if end - first != 1 {
        return Err(NotDefinitions);
    }
    Ok(TypeText {
        name: name_word(nodes, first),
        list: true,
    })
}

// The value at node k as a type: a name, or a list of one name.
pub fn read_type(nodes: &[u32], k: usize) -> Result<TypeText, NotDefinitions>
    ensures { ReadsType nodes.now k result }
{
    if is_string(nodes, k) {
        return Ok(TypeText {
            name: name_word(nodes, k),
            list: false,
        });
    }
    list_type(nodes, k)
}

// What a command returns, by its node; a name of no bytes where that is absent.
pub fn take_return(nodes: &[u32], returns: Option<usize>) -> Result<TypeText, NotDefinitions>
    ensures { TakesReturn nodes.now returns result }
{
    match returns {
        Some(k) => read_type(nodes, k),
        None => Ok(TypeText {
            name: 0,
            list: false,
        }),
    }
}

// A flag by its node; false where that is absent.
pub fn take_flag(nodes: &[u32], flag: Option<usize>) -> Result<bool, NotDefinitions>
    ensures { TakesFlag nodes.now flag result }
{
    let Some(k) = flag else {
        return Ok(false);
    };
    match node_word(nodes, k, NODE_KIND) {
        node::FALSE => Ok(false),
        node::TRUE => Ok(true),
        _ => Err(NotDefinitions),
    }
}

// The link of a base or of data by its node, 0 where that is absent, of the owner at row n: the row after its owner, or a name.
pub fn data_link(nodes: &[u32], value: Option<usize>, n: usize) -> u32
    requires { n < node_bound }
    ensures { Links nodes.now value n result }
{
    let Some(k) = value else {
        return 0;
    };
    if is_string(nodes, k) {
        return name_word(nodes, k);
    }
    (n + 2) as u32
}

// Whether a struct's base is a name, or absent.
pub fn base_fits(nodes: &[u32], base: Option<usize>) -> bool
    ensures { BaseFits nodes.now base result }
{
    match base {
        Some(k) => is_string(nodes, k),
        None => true,
    }
}
