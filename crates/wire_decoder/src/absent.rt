//! What fields read as that the version of a struct lacks.

ghost use Rattle.std.specs.Prelude.{◌≡◌, IfOk, OnOk, map, slice_get};
ghost use Rattle.mj_schema.specs.KindTrees.{kind_view};
ghost use Rattle.wire_model.specs.Absent.{literal_value, absent_kind, absent_field, absent_values};
ghost use Rattle.wire_model.specs.Trees.{view, trees};
ghost use Rattle.wire_decoder.specs.steps.Joined.{joined};

use mj_schema::{FieldRow, KindNode, Literal, Schema};
use schema_rows::{enum_number, find_enum};
use std::alloc::{AllocError, Global};
use wire_model::Value;

/// A copy of bytes.
pub fn copied(alloc: Global, bytes: &[u8]) -> Result<Vec<u8>, AllocError>
    ensures { IfOk result (λ made. made.items ≡ bytes.now) }
{
    let mut made = Vec::with_capacity(alloc, bytes.len())?;
    made.extend_from_slice(bytes)?;
    Ok(made)
}

/// The value that a file has written out.
fn literal_value(alloc: Global, literal: &Literal) -> Result<Value, AllocError>
    ensures { IfOk result (λ value. view value ≡ literal_value literal.now) }
{
    match literal {
        Literal::Bool(bool) => Ok(Value::Bool(*bool)),
        Literal::Whole(number) => Ok(Value::Whole(*number)),
        Literal::Text(bytes) => Ok(Value::Text(copied(alloc, bytes.as_slice())?)),
    }
}

/// What a kind reads as.
fn absent_kind(schema: &Schema, kind: &KindNode) -> Value
    ensures { view result ≡ absent_kind schema.now (kind_view kind.now) }
{
    match kind {
        KindNode::Bool { nullable: false } => Value::Bool(false),
        KindNode::Int {
            nullable: false,
            ..
        } => Value::Whole(0),
        KindNode::Enum {
            number,
            nullable: false,
        } => {
            let number = enum_number(find_enum(schema, *number));
            Value::Whole(i128::from(number))
        }
        _ => Value::Null,
    }
}

/// What a field reads as: its default, or else what its kind does.
fn absent_field(alloc: Global, schema: &Schema, field: &FieldRow) -> Result<Value, AllocError>
    ensures { IfOk result (λ value. view value ≡ absent_field schema.now field.now.default field.now.kind) }
{
    match &field.default {
        Some(literal) => literal_value(alloc, literal),
        None => Ok(absent_kind(schema, field.kind.node())),
    }
}

/// Adds what these fields read as.
pub fn add_absent(
    alloc: Global,
    schema: &Schema,
    values: &mut Vec<Value>,
    fields: &[FieldRow],
) -> Result<(), AllocError>
    ensures { OnOk result (trees (map view values.new.items) ≡ joined (map view values.old.items) (absent_values schema.now fields.now)) }
{
    for field in fields {
        let value = absent_field(alloc, schema, field)?;
        values.push(value)?;
    }
    Ok(())
}
