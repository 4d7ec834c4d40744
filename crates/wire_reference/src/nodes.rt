//! The nodes of the tree of a message.

use mj_schema::{FieldRow, KindNode, StructRow};

/// What stands somewhere.
#[derive(Clone, Copy)]
pub enum What<'a> {
    /// A field or an element.
    Slot(&'a KindNode),
    /// What a union holds: there a union stands behind a pointer.
    Held(&'a KindNode),
    /// The pointer to the keys or to the values of a map, which are of a kind.
    List(&'a KindNode),
    /// A field that the version of its struct lacks.
    Absent(&'a FieldRow),
    /// A field whose flag says that there is no value.
    NoValue,
    /// A struct, as an object.
    Struct(&'a StructRow),
    /// An array, as an object.
    Array {
        of: &'a KindNode,
        count: Option<u32>,
    },
    /// A map, as an object.
    Map {
        key: &'a KindNode,
        value: &'a KindNode,
    },
    /// A string, as an object.
    Text,
    /// A union of this kind, as an object.
    Union(&'a KindNode),
    /// An object of a kind that has none.
    Nothing,
}

/// A node: its byte place in the message and for a bool its bit, how many objects lead to it, its own
/// among them, and where its parts stand in the list of nodes.
#[derive(Clone, Copy)]
pub struct Node<'a> {
    pub what: What<'a>,
    pub at: u64,
    pub bit: u32,
    pub depth: u32,
    pub first: usize,
    pub parts: usize,
}

impl<'a> Node<'a> {
    /// A node whose parts aren't known yet.
    pub fn new(what: What<'a>, at: u64, depth: u32) -> Node<'a> {
        Node {
            what,
            at,
            bit: 0,
            depth,
            first: 0,
            parts: 0,
        }
    }
}
