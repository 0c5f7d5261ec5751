// Members up a chain of bases, as the keys of a message ask for them.
ghost use Rattle.members.specs.Members.{MemberMeant, FieldMember};

use children::lists::child_meant;
use rows::rows::{wide, word};
use rules::{CHAIN_STRUCTS, row};

// The link of the member that the key at node k means, of the struct with a link: an inherited one first; 0 if there is none.
fn member_meant(
    schema: &[u8],
    rows: &[u32],
    m: &[u8],
    nodes: &[u32],
    index: &[u32],
    link: u32,
    left: usize,
    k: usize,
) -> usize
    ensures { MemberMeant schema.now rows.now m.now nodes.now index.now left link k result }
{
    if link == 0 {
        return 0;
    }
    if left == 0 {
        return 0;
    }
    let r = wide(link - 1);
    let inherited = member_meant(
        schema,
        rows,
        m,
        nodes,
        index,
        word(rows, r, row::BASE),
        left - 1,
        k,
    );
    if inherited != 0 {
        return inherited;
    }
    child_meant(schema, rows, m, nodes, index, r, k)
}

// The link of the member that the key at node k means, of two structs: a union's base and then its branch's; 0 if there is none.
pub fn field_member(
    schema: &[u8],
    rows: &[u32],
    m: &[u8],
    nodes: &[u32],
    index: &[u32],
    k: usize,
    base: u32,
    branch: u32,
) -> usize
    ensures { FieldMember schema.now rows.now m.now nodes.now index.now k base branch result }
{
    let x = member_meant(schema, rows, m, nodes, index, base, CHAIN_STRUCTS, k);
    if x != 0 {
        return x;
    }
    member_meant(schema, rows, m, nodes, index, branch, CHAIN_STRUCTS, k)
}
