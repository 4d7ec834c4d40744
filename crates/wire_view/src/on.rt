//! What a view stands on.

use mj_schema::KindNode;

/// The struct of a number, an array of elements of a kind, a map of keys and values of these kinds, or the
/// union of a number.
#[derive(Clone, Copy)]
pub enum On<'a> {
    Struct(u32),
    Array(&'a KindNode),
    Map(&'a KindNode, &'a KindNode),
    Union(u32),
}
