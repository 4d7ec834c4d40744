//! Whether a value that was read by a newer schema agrees with the one that was written by an older one: they are equal, but that the
//! list of each struct may go on with what its absent fields read as.

use crate::members::kind_under;
use mj_schema::{FieldRow, Kind, KindNode, Literal, Schema};
use std::alloc::{AllocError, Global};
use wire_model::Value;
use wire_reference::{are_same, is_nullable};

/// How many values two values have at most.
const MOST_VALUES: usize = 1_000_000;

/// A value that was written, the one that was read, and its kind by the newer schema.
#[derive(Clone, Copy)]
struct Both<'a> {
    written: &'a Value,
    read: &'a Value,
    kind: &'a KindNode,
}

/// Adds the values of two lists, and answers whether they are equally long.
fn push_lists<'a>(
    written: &'a [Value],
    read: &'a [Value],
    kind: &'a KindNode,
    later: &mut Vec<Both<'a>>,
) -> Result<bool, AllocError> {
    for (written, read) in written.iter().zip(read) {
        later.push(Both {
            written,
            read,
            kind,
        })?;
    }
    Ok(written.len() == read.len())
}

/// The number that a field reads as that isn't there and declares none: of an enum its default, else 0 where that is a member, else its
/// first.
fn number_absent(schema: &Schema, kind: &KindNode) -> i128 {
    let KindNode::Enum { number, .. } = kind else {
        return 0;
    };
    let Some(row) = schema.enums.as_slice().get(*number as usize) else {
        return 0;
    };
    let members = row.members.as_slice();
    let has_zero = members.iter().any(|member| member.number == 0);
    match (row.default, members) {
        (Some(number), _) => i128::from(number),
        (None, [first, ..]) if !has_zero => i128::from(first.number),
        _ => 0,
    }
}

/// Whether a field that isn't there reads as this: its default, else null where it has `?`, else a number, false or 0.
fn is_absent(schema: &Schema, field: &FieldRow, read: &Value) -> bool {
    let nullable = is_nullable(field.kind.node());
    match (&field.default, read) {
        (Some(Literal::Bool(wanted)), Value::Bool(read)) => wanted == read,
        (Some(Literal::Whole(wanted)), Value::Whole(read)) => wanted == read,
        (Some(Literal::Text(wanted)), Value::Text(read)) => wanted.as_slice() == read.as_slice(),
        (None, Value::Null) => nullable,
        (None, Value::Bool(read)) => !nullable && !*read,
        (None, Value::Whole(read)) => {
            !nullable && *read == number_absent(schema, field.kind.node())
        }
        _ => false,
    }
}

/// Adds the fields that a struct was written with; whether those behind them read as absent ones do.
fn push_fields<'a>(
    schema: &'a Schema,
    number: u32,
    written: &'a [Value],
    read: &'a [Value],
    later: &mut Vec<Both<'a>>,
) -> Result<bool, AllocError> {
    let Some(row) = schema.structs.as_slice().get(number as usize) else {
        return Ok(false);
    };
    let fields = row.fields.as_slice();
    if fields.len() != read.len() || written.len() > read.len() {
        return Ok(false);
    }
    for (place, (field, read)) in fields.iter().zip(read).enumerate() {
        match written.get(place) {
            Some(written) => later.push(Both {
                written,
                read,
                kind: field.kind.node(),
            })?,
            None if is_absent(schema, field, read) => {}
            None => return Ok(false),
        }
    }
    Ok(true)
}

/// Adds what two unions hold under a tag; whether the newer schema has the tag.
fn push_held<'a>(
    schema: &'a Schema,
    number: u32,
    tag: u32,
    written: &'a Value,
    read: &'a Value,
    later: &mut Vec<Both<'a>>,
) -> Result<bool, AllocError> {
    let Some(row) = schema.unions.as_slice().get(number as usize) else {
        return Ok(false);
    };
    let Some(kind) = kind_under(row, tag) else {
        return Ok(false);
    };
    later.push(Both {
        written,
        read,
        kind: kind.node(),
    })?;
    Ok(true)
}

/// Whether two values agree but for what they hold, which is added.
fn agree_outside<'a>(
    alloc: Global,
    schema: &'a Schema,
    both: Both<'a>,
    later: &mut Vec<Both<'a>>,
) -> Result<bool, AllocError> {
    match (both.kind, both.written, both.read) {
        (KindNode::Struct { number, .. }, Value::Struct(one), Value::Struct(other)) => {
            push_fields(schema, *number, one, other, later)
        }
        (KindNode::Array { of, .. }, Value::List(one), Value::List(other)) => {
            push_lists(one, other, of, later)
        }
        (
            KindNode::Map { key, value, .. },
            Value::Map { keys, values },
            Value::Map {
                keys: other_keys,
                values: other_values,
            },
        ) => {
            let is_right = push_lists(keys, other_keys, key, later)?;
            Ok(push_lists(values, other_values, value, later)? && is_right)
        }
        (
            KindNode::Union { number, .. },
            Value::Union { tag, value },
            Value::Union {
                tag: other_tag,
                value: other,
            },
        ) => Ok(tag == other_tag && push_held(schema, *number, *tag, value, other, later)?),
        (_, one, other) => are_same(alloc, one, other),
    }
}

/// Whether a value of a kind agrees with the one that was written.
fn agree<'a>(
    alloc: Global,
    schema: &'a Schema,
    kind: &'a Kind,
    written: &'a Value,
    read: &'a Value,
) -> Result<bool, AllocError> {
    let mut later = Vec::new(alloc);
    later.push(Both {
        written,
        read,
        kind: kind.node(),
    })?;
    for _ in 0..MOST_VALUES {
        match later.pop() {
            None => return Ok(true),
            Some(both) => {
                if !agree_outside(alloc, schema, both, &mut later)? {
                    return Ok(false);
                }
            }
        }
    }
    Ok(false)
}

/// Whether parameters that were read agree with those that were written, where the newer schema's are the struct of this number.
pub fn agrees(
    alloc: Global,
    schema: &Schema,
    number: u32,
    written: &Value,
    read: &Value,
) -> Result<bool, AllocError> {
    let kind = Kind::new(KindNode::Struct {
        number,
        nullable: false,
    });
    agree(alloc, schema, &kind, written, read)
}
