// How many mandatory members the structs of an object have.
ghost use Rattle.std.specs.Prelude.{◌≤◌};
ghost use Rattle.grammar.specs.Limits.{chain_structs};
ghost use Rattle.members.specs.Mandatory.{MandatoryCount, MandatoryMembers};

use children::lists::own_mandatory;
use rows::rows::{wide, word};
use rules::{CHAIN_STRUCTS, row};

// How many mandatory members the struct with a link has, inherited ones too.
fn mandatory_count(rows: &[u32], index: &[u32], link: u32, left: usize) -> usize
    requires { left ≤ chain_structs }
    ensures { MandatoryCount rows.now index.now left link result }
{
    if link == 0 {
        return 0;
    }
    if left == 0 {
        return 0;
    }
    let r = wide(link - 1);
    let inherited = mandatory_count(rows, index, word(rows, r, row::BASE), left - 1);
    inherited + own_mandatory(rows, index, r)
}

// How many mandatory members two structs have, a union's base and its branch's.
pub fn mandatory_members(rows: &[u32], index: &[u32], base: u32, branch: u32) -> usize
    ensures { MandatoryMembers rows.now index.now base branch result }
{
    let in_base = mandatory_count(rows, index, base, CHAIN_STRUCTS);
    in_base + mandatory_count(rows, index, branch, CHAIN_STRUCTS)
}
