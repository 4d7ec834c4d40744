//! The text of a value.

ghost use Rattle.std.specs.Prelude.{◌≡◌, ◌++◌, ◌∷◌, [], List, ℕ, OnOk, IfOk, ◌≤◌, map, decimal};
ghost use Rattle.mj_schema.specs.KindTrees.{kind_view};
ghost use Rattle.wire_model.specs.Depth.{IsOfKind};
ghost use Rattle.wire_model.specs.Trees.{view, trees};
ghost use Rattle.byte_rules.specs.Judged.{Spells};
ghost use Rattle.value_text.specs.Brackets.{MAX_BRACKETS, brackets};
ghost use Rattle.value_text.specs.Rules as rules;
ghost use Rattle.value_text.specs.Signs.{open_round, colon, open_angle, close_angle, open_square, open_curly};
ghost use Rattle.value_text.specs.Spelling.{fields_kinds, spell, first_item, each_text, first_pair, first_field, key_of, value_of, held};

use crate::kinds::{element_of, fields_of, held, key_of, value_of};
use crate::writing::{push_index, push_text, push_versioned, push_whole};
use mj_schema::{FieldRow, Kind, KindNode, Schema};
use std::alloc::{AllocError, Global};
use wire_model::Value;

/// Adds the text of a value.
#[cycle(push)]
#[tactic(auto, unfolding(crate::specs::Spelling::spell, crate::specs::Spelling::both_lists))]
pub fn push_value(
    value: &Value,
    kind: &KindNode,
    alloc: Global,
    schema: &Schema,
    out: &mut Vec<u8>,
) -> Result<(), AllocError>
    ensures { OnOk result (out.new.items ≡ out.old.items ++ spell schema.now (kind_view kind.now) (view value.now)) }
{
    match value {
        Value::Null => out.extend_from_slice(b"null"),
        Value::Bool(true) => out.extend_from_slice(b"true"),
        Value::Bool(false) => out.extend_from_slice(b"false"),
        Value::Whole(number) => push_whole(alloc, out, *number),
        Value::Text(text) => push_text(out, text),
        Value::List(items) => push_list(items, element_of(kind), alloc, schema, out),
        Value::Map { keys, values } => push_map(keys, values, kind, alloc, schema, out),
        Value::Struct(fields) => push_struct(fields, fields_of(schema, kind), alloc, schema, out),
        Value::Union { tag, value } => push_member(value, *tag, kind, alloc, schema, out),
        Value::Unknown(tag) => push_unknown(alloc, *tag, out),
        Value::Handle(index) => push_index(alloc, out, b'%', *index),
        Value::Remote { index, version } => push_versioned(alloc, out, b'%', *index, *version),
        Value::Endpoint(index) => push_index(alloc, out, b'^', *index),
        Value::EndpointRemote { index, version } => push_versioned(
            alloc, out, b'^', *index, *version,
        ),
    }
}

/// Adds elements between brackets.
#[cycle(push)]
#[tactic(auto, using(crate::proofs::Printed::brackets_at))]
fn push_list(
    items: &[Value],
    of: &KindNode,
    alloc: Global,
    schema: &Schema,
    out: &mut Vec<u8>,
) -> Result<(), AllocError>
    ensures { OnOk result (out.new.items ≡ out.old.items ++ open_square ∷ first_item schema.now (kind_view of.now) (trees (map view items.now))) }
{
    out.push(b'[')?;
    for (i, item) in items.iter().enumerate() {
        if i > 0 {
            out.push(b',')?;
        }
        push_value(item, of, alloc, schema, out)?;
    }
    out.push(b']')?;
    Ok(())
}

/// Adds the pairs of keys and values between brackets.
#[cycle(push)]
#[tactic(auto, using(crate::proofs::Printed::brackets_at))]
fn push_map(
    keys: &[Value],
    values: &[Value],
    kind: &KindNode,
    alloc: Global,
    schema: &Schema,
    out: &mut Vec<u8>,
) -> Result<(), AllocError>
    ensures { OnOk result
        (out.new.items ≡ out.old.items ++ open_curly ∷ first_pair (each_text schema.now (key_of (kind_view kind.now)) (trees (map view keys.now)))
        (each_text schema.now (value_of (kind_view kind.now)) (trees (map view values.now)))) }
{
    out.push(b'{')?;
    let mut i = 0;
    while i < keys.len() && i < values.len() {
        if i > 0 {
            out.push(b',')?;
        }
        push_value(&keys[i], key_of(kind), alloc, schema, out)?;
        out.push(b':')?;
        push_value(&values[i], value_of(kind), alloc, schema, out)?;
        i += 1;
    }
    out.push(b'}')?;
    Ok(())
}

/// Adds the fields of a struct between brackets.
#[cycle(push)]
#[tactic(auto, using(crate::proofs::Printed::brackets_at))]
fn push_struct(
    values: &[Value],
    row: &[FieldRow],
    alloc: Global,
    schema: &Schema,
    out: &mut Vec<u8>,
) -> Result<(), AllocError>
    ensures { OnOk result (out.new.items ≡ out.old.items ++ open_round ∷ first_field schema.now (fields_kinds row.now) (trees (map view values.now))) }
{
    out.push(b'(')?;
    let mut i = 0;
    while i < values.len() && i < row.len() {
        if i > 0 {
            out.push(b',')?;
        }
        push_value(&values[i], row[i].kind.node(), alloc, schema, out)?;
        i += 1;
    }
    out.push(b')')?;
    Ok(())
}

/// Adds a tag and what a union holds between brackets.
#[cycle(push)]
fn push_member(
    value: &Value,
    tag: u32,
    kind: &KindNode,
    alloc: Global,
    schema: &Schema,
    out: &mut Vec<u8>,
) -> Result<(), AllocError>
    ensures { OnOk result
        (out.new.items ≡ out.old.items ++ open_angle ∷
        (decimal tag ++ colon ∷ (spell schema.now (held schema.now (kind_view kind.now) tag) (view value.now) ++ close_angle ∷ []))) }
{
    push_index(alloc, out, b'<', tag)?;
    out.push(b':')?;
    push_value(value, held(schema, kind, tag), alloc, schema, out)?;
    out.push(b'>')?;
    Ok(())
}

/// Adds a tag that the union lacks between brackets.
fn push_unknown(alloc: Global, tag: u32, out: &mut Vec<u8>) -> Result<(), AllocError>
    ensures { OnOk result (out.new.items ≡ out.old.items ++ open_angle ∷ (decimal tag ++ close_angle ∷ [])) }
{
    push_index(alloc, out, b'<', tag)?;
    out.push(b'>')?;
    Ok(())
}

/// The text of the value as one of the kind. It is the one text of the value: where the value is of
/// the kind, with at most 512 brackets open at once, the text spells it, and no other bytes do.
/// Fails only where memory runs out.
#[tactic(auto, using(crate::proofs::Shows::spelled, crate::proofs::OneText::one_text))]
pub fn write_value(
    alloc: Global,
    schema: &Schema,
    kind: &Kind,
    value: &Value,
) -> Result<Vec<u8>, AllocError>
    ensures text { IfOk result (λ text. text.items ≡ spell schema.now kind.now (view value.now)) }
    ensures spells { IfOk result
        (λ text. IsOfKind schema.now kind.now (view value.now) → brackets (view value.now) ≤ MAX_BRACKETS
        → Spells (rules.value schema.now MAX_BRACKETS kind.now) (view value.now) text.items) }
    ensures one { IfOk result (λ text. (bytes : List ℕ) → Spells (rules.value schema.now MAX_BRACKETS kind.now) (view value.now) bytes → bytes ≡ text.items) }
{
    let mut out = Vec::new(alloc);
    push_value(value, kind.node(), alloc, schema, &mut out)?;
    Ok(out)
}
