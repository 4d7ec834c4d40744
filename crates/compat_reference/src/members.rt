//! Members of rows by their ordinals and tags.

use mj_schema::{FieldRow, InterfaceRow, Kind, MethodRow, StructRow, UnionRow};
use std::alloc::{AllocError, Global};

/// The field of an ordinal.
pub fn field_of(row: &StructRow, ordinal: u32) -> Option<&FieldRow> {
    let mut fields = row.fields.as_slice().iter();
    fields.find(|field| field.ordinal == ordinal)
}

/// What a union holds under a tag.
pub fn kind_under(row: &UnionRow, tag: u32) -> Option<&Kind> {
    let mut fields = row.fields.as_slice().iter();
    let field = fields.find(|field| field.tag == tag)?;
    Some(&field.kind)
}

/// The method of an ordinal.
pub fn method_of(row: &InterfaceRow, ordinal: u32) -> Option<&MethodRow> {
    let mut methods = row.methods.as_slice().iter();
    methods.find(|method| method.ordinal == ordinal)
}

/// The tags of a union, the least first.
pub fn tags_of(alloc: Global, row: &UnionRow) -> Result<Vec<u32>, AllocError> {
    let mut tags = Vec::new(alloc);
    for field in row.fields.as_slice() {
        tags.push(field.tag)?;
    }
    tags.sort_unstable();
    Ok(tags)
}

/// The ordinals of an interface's methods, the least first.
pub fn ordinals_of(alloc: Global, row: &InterfaceRow) -> Result<Vec<u32>, AllocError> {
    let mut ordinals = Vec::new(alloc);
    for method in row.methods.as_slice() {
        ordinals.push(method.ordinal)?;
    }
    ordinals.sort_unstable();
    Ok(ordinals)
}

/// The newest version of a struct: the greatest since which one of its fields is there.
pub fn newest_version(row: &StructRow) -> u32 {
    let mut newest: u32 = 0;
    for field in row.fields.as_slice() {
        newest = newest.max(field.min_version);
    }
    newest
}
