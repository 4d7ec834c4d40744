//! Attributes.

use crate::names::{Identifier, Value};

/// An attribute: its name, and its value where it has one.
#[derive(Drop)]
pub struct Attribute {
    pub name: Identifier,
    pub value: Option<Value>,
}
