// Keys counted: an object that repeats no key has no key but given names exactly if it has as many fields as names that are keys.
ghost use Rattle.lookups.specs.Lookups.{CountsFields, NoOthers};

use text::nodes::{NODE_NEXT, node_number};

// The number of fields of the object at node k.
fn field_count(nodes: &[u32], k: usize) -> usize
    ensures { CountsFields nodes.now k result }
{
    let end = node_number(nodes, k, NODE_NEXT);
    if end <= k {
        return 0;
    }
    let mut count = 0;
    let mut a = k + 1;
    while a < end {
        let n = node_number(nodes, a, NODE_NEXT);
        if n <= a {
            return 0;
        }
        count += 1;
        a = n;
    }
    count
}

// Whether the object at node k, which repeats no key, has no key but those whose values were looked up and stand at these nodes.
pub fn no_others(nodes: &[u32], k: usize, values: &[Option<usize>]) -> bool
    ensures { NoOthers nodes.now k values.now result }
{
    values.iter().filter(|v| v.is_some()).count() == field_count(nodes, k)
}
