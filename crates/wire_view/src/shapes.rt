//! The sorts of objects.

/// What a view is of.
#[derive(Clone, Copy)]
pub enum Shape {
    Struct,
    Array,
    Map,
    Union,
}
