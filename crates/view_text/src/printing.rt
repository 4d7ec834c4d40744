//! The text of a view.

ghost use Rattle.std.specs.Prelude.{◌≡◌, ◌<◌, ◌++◌, ◌∷◌, [], OnOk, IfOk, Some, decimal};
ghost use Rattle.mj_schema.specs.KindTrees.{kind_view};
ghost use Rattle.value_text.specs.Signs.{open_round, colon, open_angle, close_angle, open_square, open_curly};
ghost use Rattle.value_text.specs.Spelling.{fields_kinds, spell, first_item, each_text, first_pair, first_field, held};
ghost use Rattle.view_text.specs.steps.Inside.{IsListed, IsMap, IsUnion, inside};
ghost use Rattle.wire_model.specs.Trees.{Trees, Items};
ghost use Rattle.wire_view.specs.PartValues.{tree_in};
ghost use Rattle.wire_view.specs.Parts.{nth, part, how_many, tag_of};
ghost use Rattle.wire_view.specs.Views.{tree_of};

use crate::leaves::push_leaf;
use mj_schema::{FieldRow, Kind, KindNode, Schema};
use std::alloc::{AllocError, Global};
use value_text::kinds::{element_of, fields_of, held, key_of, value_of};
use wire_view::{Part, Shape, View};

/// The part of a number of an array or of a struct.
fn part_at<'a>(view: &View<'a>, i: u32) -> Part<'a>
    requires within { i < how_many (tree_of view.now) }
    requires listed { IsListed (tree_of view.now) }
    ensures { Some (tree_in result) ≡ nth (inside (tree_of view.now)) i }
{
    match view.part(i) {
        Some(part) => part,
        None => unreachable!(),
    }
}

/// The list that a part is.
fn list_at<'a>(view: &View<'a>, i: u32) -> View<'a>
    requires { (ts : Trees) × (part (tree_of view.now) i ≡ Some (Items ts)) }
    ensures { Some (tree_of result) ≡ part (tree_of view.now) i }
{
    match view.child(i) {
        Some(list) => list,
        None => unreachable!(),
    }
}

/// The tag of a union.
fn tag_at(view: &View<'_>) -> u32
    requires { IsUnion (tree_of view.now) }
    ensures { Some result ≡ tag_of (tree_of view.now) }
{
    match view.tag() {
        Some(tag) => tag,
        None => unreachable!(),
    }
}

/// Adds the bracket of a union and its tag.
fn push_tag(alloc: Global, tag: u32, out: &mut Vec<u8>) -> Result<(), AllocError>
    ensures { OnOk result (out.new.items ≡ out.old.items ++ open_angle ∷ decimal tag) }
{
    out.push(b'<')?;
    let text = tag.to_string(alloc)?;
    out.extend_from_slice(text.as_bytes())
}

/// Adds a tag that the union lacks between brackets.
fn push_unknown(alloc: Global, tag: u32, out: &mut Vec<u8>) -> Result<(), AllocError>
    ensures { OnOk result (out.new.items ≡ out.old.items ++ open_angle ∷ (decimal tag ++ close_angle ∷ [])) }
{
    push_tag(alloc, tag, out)?;
    out.push(b'>')?;
    Ok(())
}

/// Adds the text of a part.
#[cycle(push)]
fn push_part(
    part: &Part<'_>,
    kind: &KindNode,
    alloc: Global,
    schema: &Schema,
    out: &mut Vec<u8>,
) -> Result<(), AllocError>
    ensures { OnOk result (out.new.items ≡ out.old.items ++ spell schema.now (kind_view kind.now) (tree_in part.now)) }
{
    match part.as_object() {
        Some(view) => push_view(&view, kind, alloc, schema, out),
        None => push_leaf(part, alloc, schema, out),
    }
}

/// Adds the text of an object.
#[cycle(push)]
fn push_view(
    view: &View<'_>,
    kind: &KindNode,
    alloc: Global,
    schema: &Schema,
    out: &mut Vec<u8>,
) -> Result<(), AllocError>
    ensures { OnOk result (out.new.items ≡ out.old.items ++ spell schema.now (kind_view kind.now) (tree_of view.now)) }
{
    match view.shape() {
        Shape::Struct => push_struct(view, fields_of(schema, kind), alloc, schema, out),
        Shape::Array => push_list(view, element_of(kind), alloc, schema, out),
        Shape::Map => push_map(view, kind, alloc, schema, out),
        Shape::Union => push_union(view, kind, alloc, schema, out),
    }
}

/// Adds elements between brackets.
#[cycle(push)]
fn push_list(
    view: &View<'_>,
    of: &KindNode,
    alloc: Global,
    schema: &Schema,
    out: &mut Vec<u8>,
) -> Result<(), AllocError>
    requires { IsListed (tree_of view.now) }
    ensures { OnOk result (out.new.items ≡ out.old.items ++ open_square ∷ first_item schema.now (kind_view of.now) (inside (tree_of view.now))) }
{
    out.push(b'[')?;
    let count = view.len();
    let mut i = 0;
    while i < count {
        if i > 0 {
            out.push(b',')?;
        }
        let item = part_at(view, i);
        push_part(&item, of, alloc, schema, out)?;
        i += 1;
    }
    out.push(b']')?;
    Ok(())
}

/// Adds the pairs of keys and values of a map between brackets.
#[cycle(push)]
fn push_map(
    view: &View<'_>,
    kind: &KindNode,
    alloc: Global,
    schema: &Schema,
    out: &mut Vec<u8>,
) -> Result<(), AllocError>
    requires { IsMap (tree_of view.now) }
    ensures { OnOk result (out.new.items ≡ out.old.items ++ spell schema.now (kind_view kind.now) (tree_of view.now)) }
{
    let keys = list_at(view, 0);
    let values = list_at(view, 1);
    push_pairs(
        &keys,
        &values,
        key_of(kind),
        value_of(kind),
        alloc,
        schema,
        out,
    )
}

/// Adds pairs of keys and values between brackets.
#[cycle(push)]
#[tactic(auto, using(crate::proofs::Printed::brackets_at))]
fn push_pairs(
    keys: &View<'_>,
    values: &View<'_>,
    key: &KindNode,
    one: &KindNode,
    alloc: Global,
    schema: &Schema,
    out: &mut Vec<u8>,
) -> Result<(), AllocError>
    requires keys { IsListed (tree_of keys.now) }
    requires values { IsListed (tree_of values.now) }
    ensures { OnOk result
        (out.new.items ≡ out.old.items ++ open_curly ∷ first_pair (each_text schema.now (kind_view key.now) (inside (tree_of keys.now)))
        (each_text schema.now (kind_view one.now) (inside (tree_of values.now)))) }
{
    out.push(b'{')?;
    let names = keys.len();
    let count = values.len();
    let mut i = 0;
    while i < names && i < count {
        if i > 0 {
            out.push(b',')?;
        }
        let name = part_at(keys, i);
        push_part(&name, key, alloc, schema, out)?;
        out.push(b':')?;
        let item = part_at(values, i);
        push_part(&item, one, alloc, schema, out)?;
        i += 1;
    }
    out.push(b'}')?;
    Ok(())
}

/// Adds the fields of a struct between brackets.
#[cycle(push)]
fn push_struct(
    view: &View<'_>,
    row: &[FieldRow],
    alloc: Global,
    schema: &Schema,
    out: &mut Vec<u8>,
) -> Result<(), AllocError>
    requires { IsListed (tree_of view.now) }
    ensures { OnOk result (out.new.items ≡ out.old.items ++ open_round ∷ first_field schema.now (fields_kinds row.now) (inside (tree_of view.now))) }
{
    out.push(b'(')?;
    let count = view.len() as usize;
    let mut i = 0;
    while i < count && i < row.len() {
        if i > 0 {
            out.push(b',')?;
        }
        let item = part_at(view, i as u32);
        push_part(&item, row[i].kind.node(), alloc, schema, out)?;
        i += 1;
    }
    out.push(b')')?;
    Ok(())
}

/// Adds the tag of a union and what it holds, if its tag is known, between brackets.
#[cycle(push)]
fn push_union(
    view: &View<'_>,
    kind: &KindNode,
    alloc: Global,
    schema: &Schema,
    out: &mut Vec<u8>,
) -> Result<(), AllocError>
    requires { IsUnion (tree_of view.now) }
    ensures { OnOk result (out.new.items ≡ out.old.items ++ spell schema.now (kind_view kind.now) (tree_of view.now)) }
{
    let tag = tag_at(view);
    match view.part(tag) {
        Some(part) => push_member(&part, tag, kind, alloc, schema, out),
        None => push_unknown(alloc, tag, out),
    }
}

/// Adds a tag and what a union holds between brackets.
#[cycle(push)]
fn push_member(
    part: &Part<'_>,
    tag: u32,
    kind: &KindNode,
    alloc: Global,
    schema: &Schema,
    out: &mut Vec<u8>,
) -> Result<(), AllocError>
    ensures { OnOk result
        (out.new.items ≡ out.old.items ++ open_angle ∷
        (decimal tag ++ colon ∷ (spell schema.now (held schema.now (kind_view kind.now) tag) (tree_in part.now) ++ close_angle ∷ []))) }
{
    push_tag(alloc, tag, out)?;
    out.push(b':')?;
    push_part(part, held(schema, kind, tag), alloc, schema, out)?;
    out.push(b'>')?;
    Ok(())
}

/// The text of what a view is of, as one of the kind. Takes no memory but that of the text, and of one
/// string or number at a time. Fails only where memory runs out.
pub fn write_view(
    alloc: Global,
    schema: &Schema,
    kind: &Kind,
    view: &View<'_>,
) -> Result<Vec<u8>, AllocError>
    ensures { IfOk result (λ text. text.items ≡ spell schema.now kind.now (tree_of view.now)) }
{
    let mut out = Vec::new(alloc);
    push_view(view, kind.node(), alloc, schema, &mut out)?;
    Ok(out)
}
