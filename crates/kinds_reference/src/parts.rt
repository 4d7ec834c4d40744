//! The types of which a type is made.

use mojom_ast::{BaseNode, TypeNode};
use std::alloc::{AllocError, Global};

/// Where a type stands.
#[derive(Clone, Copy)]
pub enum Stand {
    /// As that of a field of a struct or of a parameter.
    Field,
    /// As the key of a map.
    Key,
    /// As that of an element, of a map's value, of what a union holds, or of a constant.
    Other,
}

/// A type within a type, or the whole.
#[derive(Clone, Copy)]
pub struct Part<'a> {
    pub node: &'a TypeNode,
    pub stand: Stand,
}

/// Adds a type and all within it.
#[cycle(types)]
fn add_parts<'a>(
    parts: &mut Vec<Part<'a>>,
    node: &'a TypeNode,
    stand: Stand,
) -> Result<(), AllocError> {
    parts.push(Part { node, stand })?;
    match &node.base {
        BaseNode::Array { of, .. } => add_parts(parts, of, Stand::Other),
        BaseNode::Map { key, value } => {
            add_parts(parts, key, Stand::Key)?;
            add_parts(parts, value, Stand::Other)
        }
        BaseNode::Name(_) | BaseNode::Handle(_) | BaseNode::Pending { .. } => Ok(()),
    }
}

/// A type that stands somewhere, and all types within it.
pub fn parts_of(alloc: Global, node: &TypeNode, stand: Stand) -> Result<Vec<Part<'_>>, AllocError> {
    let mut parts = Vec::new(alloc);
    add_parts(&mut parts, node, stand)?;
    Ok(parts)
}
