//! The kinds of the parts of an object, by its kind.

ghost use Rattle.std.specs.Prelude.{◌≡◌};
ghost use Rattle.mj_schema.specs.KindTrees.{kind_view};
ghost use Rattle.value_text.specs.Spelling.{fields_kinds, element_of, key_of, value_of, field_kinds, held};

use mj_schema::{FieldRow, KindNode, Schema};
use schema_rows::{find_struct, kind_in};

/// The kind of an array's elements.
pub fn element_of(kind: &KindNode) -> &KindNode
    ensures { kind_view result.now ≡ element_of (kind_view kind.now) }
{
    match kind {
        KindNode::Array { of, .. } => of,
        _ => kind,
    }
}

/// The kind of a map's keys.
pub fn key_of(kind: &KindNode) -> &KindNode
    ensures { kind_view result.now ≡ key_of (kind_view kind.now) }
{
    match kind {
        KindNode::Map { key, .. } => key,
        _ => kind,
    }
}

/// The kind of a map's values.
pub fn value_of(kind: &KindNode) -> &KindNode
    ensures { kind_view result.now ≡ value_of (kind_view kind.now) }
{
    match kind {
        KindNode::Map { value, .. } => value,
        _ => kind,
    }
}

/// The fields of a struct; none where there is no such struct.
pub fn fields_of<'a>(schema: &'a Schema, kind: &KindNode) -> &'a [FieldRow]
    ensures { fields_kinds result.now ≡ field_kinds schema.now (kind_view kind.now) }
{
    match kind {
        KindNode::Struct { number, .. } => match find_struct(schema, *number) {
            Some(row) => row.fields.as_slice(),
            None => &[],
        },
        _ => &[],
    }
}

/// What a union holds under a tag; the kind itself where it holds nothing there.
pub fn held<'a>(schema: &'a Schema, kind: &'a KindNode, tag: u32) -> &'a KindNode
    ensures { kind_view result.now ≡ held schema.now (kind_view kind.now) tag }
{
    let KindNode::Union { number, .. } = kind else {
        return kind;
    };
    match kind_in(schema, *number, tag) {
        Some(held) => held.node(),
        None => kind,
    }
}
