// What is read inside a value at a type that is no alternate.
ghost use Rattle.readings.specs.Parts.{AtBuiltIn, EnumHas, ContentAt, ArrayContent, ObjectContent, ScalarContent};

use crate::kinds::built_in_takes;
use builtins::FIRST_REFERENCE;
use children::lists::child_meant;
use lookups::values::is_string;
use members::objects::{Structs, structs_at};
use rows::rows::{wide, word};
use rules::{kind, row};
use text::nodes::{NODE_KIND, node_word};
use tokens::node;

// Inside a value: nothing more than its own record, its elements, or its fields as members of the structs with two links; or it doesn't fit.
#[derive(Clone, Copy)]
pub enum Content {
    Alone,
    Elements,
    Members(u32, u32),
    Misfit,
}

// Whether a value is read at a built-in type.
fn at_built_in(t: u32, array: u32) -> bool
    ensures { AtBuiltIn t array result }
{
    if array != 0 {
        return false;
    }
    if t == 0 {
        return false;
    }
    t < FIRST_REFERENCE
}

// Whether the scalar at node k is a value of the enum at the type reference t.
fn enum_has(
    schema: &[u8],
    rows: &[u32],
    m: &[u8],
    nodes: &[u32],
    index: &[u32],
    k: usize,
    t: u32,
) -> bool
    ensures { EnumHas schema.now rows.now m.now nodes.now index.now k t result }
{
    if t < FIRST_REFERENCE {
        return false;
    }
    let r = wide(t - FIRST_REFERENCE);
    if word(rows, r, row::KIND) != kind::ENUM {
        return false;
    }
    if !is_string(nodes, k) {
        return false;
    }
    child_meant(schema, rows, m, nodes, index, r, k) != 0
}

// A scalar, at node k.
fn scalar_content(
    schema: &[u8],
    rows: &[u32],
    m: &[u8],
    nodes: &[u32],
    index: &[u32],
    k: usize,
    t: u32,
    array: u32,
) -> Content
    ensures { ScalarContent schema.now rows.now m.now nodes.now index.now k t array result }
{
    if array != 0 {
        return Content::Misfit;
    }
    if !enum_has(schema, rows, m, nodes, index, k, t) {
        return Content::Misfit;
    }
    Content::Alone
}

// An array.
fn array_content(array: u32) -> Content
    ensures { ArrayContent array result }
{
    if array != 1 {
        return Content::Misfit;
    }
    Content::Elements
}

// An object, at node k.
fn object_content(
    schema: &[u8],
    rows: &[u32],
    m: &[u8],
    nodes: &[u32],
    index: &[u32],
    k: usize,
    t: u32,
    array: u32,
) -> Content
    ensures { ObjectContent schema.now rows.now m.now nodes.now index.now k t array result }
{
    if array != 0 {
        return Content::Misfit;
    }
    match structs_at(schema, rows, m, nodes, index, k, t) {
        Structs::Links(base, branch) => Content::Members(base, branch),
        Structs::NoObject => Content::Misfit,
    }
}

// The value at node k, at the type reference t, as an array of it where `array` is 1.
pub fn content_at(
    schema: &[u8],
    rows: &[u32],
    m: &[u8],
    nodes: &[u32],
    index: &[u32],
    k: usize,
    t: u32,
    array: u32,
) -> Content
    ensures { ContentAt schema.now rows.now m.now nodes.now index.now k t array result }
{
    if at_built_in(t, array) {
        if !built_in_takes(m, nodes, k, wide(t)) {
            return Content::Misfit;
        }
        return Content::Alone;
    }
    match node_word(nodes, k, NODE_KIND) {
        node::ARRAY => array_content(array),
        node::OBJECT => object_content(schema, rows, m, nodes, index, k, t, array),
        _ => scalar_content(schema, rows, m, nodes, index, k, t, array),
    }
}
