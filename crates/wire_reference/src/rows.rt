//! The rules of rows, of members and of sizes.

use mj_schema::{EnumRow, FieldRow, Kind, KindNode, Schema, StructRow, UnionRow};

/// The room of a slot in bits.
pub fn bits(kind: &KindNode) -> u64 {
    match kind {
        KindNode::Bool { .. } => 1,
        KindNode::Int { width, .. } => u64::from(width.bits()),
        KindNode::Enum { .. } | KindNode::Handle { .. } => 32,
        KindNode::Receiver { .. } | KindNode::AssociatedReceiver { .. } => 32,
        KindNode::Remote { .. } | KindNode::AssociatedRemote { .. } => 64,
        KindNode::Text { .. } | KindNode::Array { .. } => 64,
        KindNode::Map { .. } | KindNode::Struct { .. } => 64,
        KindNode::Union { .. } => 128,
    }
}

/// The room of so many elements in bytes.
pub fn room(of: &KindNode, count: u64) -> u64 {
    bits(of).saturating_mul(count).div_ceil(8)
}

/// Whether a kind may be null.
pub fn is_nullable(kind: &KindNode) -> bool {
    match kind {
        KindNode::Bool { nullable }
        | KindNode::Int { nullable, .. }
        | KindNode::Enum { nullable, .. }
        | KindNode::Text { nullable }
        | KindNode::Handle { nullable, .. }
        | KindNode::Array { nullable, .. }
        | KindNode::Map { nullable, .. }
        | KindNode::Struct { nullable, .. }
        | KindNode::Union { nullable, .. }
        | KindNode::Remote { nullable, .. }
        | KindNode::Receiver { nullable, .. }
        | KindNode::AssociatedRemote { nullable, .. }
        | KindNode::AssociatedReceiver { nullable, .. } => *nullable,
    }
}

/// The struct of a number.
pub fn struct_of(schema: &Schema, number: u32) -> Option<&StructRow> {
    schema.structs.as_slice().get(number as usize)
}

/// The union of a number.
pub fn union_of(schema: &Schema, number: u32) -> Option<&UnionRow> {
    schema.unions.as_slice().get(number as usize)
}

/// The enum of a number.
pub fn enum_of(schema: &Schema, number: u32) -> Option<&EnumRow> {
    schema.enums.as_slice().get(number as usize)
}

/// What a union holds under a tag.
pub fn held(schema: &Schema, number: u32, tag: u64) -> Option<&Kind> {
    let fields = union_of(schema, number)?.fields.as_slice();
    let field = fields.iter().find(|field| u64::from(field.tag) == tag)?;
    Some(&field.kind)
}

/// Whether a tag that a union lacks may stand in it.
pub fn is_extensible(schema: &Schema, number: u32) -> bool {
    union_of(schema, number).is_some_and(|row| row.extensible)
}

/// Whether an enum may have a number.
pub fn is_known(schema: &Schema, number: u32, value: i32) -> bool {
    match enum_of(schema, number) {
        Some(row) => row.extensible || has_member(row, value),
        None => true,
    }
}

/// Whether an enum has a member of a number.
pub fn has_member(row: &EnumRow, value: i32) -> bool {
    for member in row.members.as_slice() {
        if member.number == value {
            return true;
        }
    }
    false
}

/// Whether a version of a struct has so many bytes: one that the schema knows has those of the greatest
/// row that isn't above it, a newer one those of the newest row or more.
pub fn goes_with(row: &StructRow, version: u64, size: u64) -> bool {
    let mut newest = 0;
    let mut wanted = 8;
    for row in row.versions.as_slice() {
        newest = u64::from(row.version);
        if newest <= version {
            wanted = u64::from(row.bytes);
        }
    }
    if version > newest {
        size >= wanted
    } else {
        size == wanted
    }
}

/// Whether a version of its struct has a field.
pub fn has_field(field: &FieldRow, version: u64) -> bool {
    u64::from(field.min_version) <= version
}
