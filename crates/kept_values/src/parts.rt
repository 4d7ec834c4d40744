//! What a history keeps of values, in few bytes.

use crate::boxed::Boxed;
use wire_model::Value;

/// What is kept of a field: a number of 64 bits, the bytes of a string, an array of which each element is a byte,
/// or else the value.
#[derive(Drop)]
pub(crate) enum Part {
    Whole(i64),
    Text(Vec<u8>),
    Bytes(Vec<u8>),
    Other(Boxed<Value>),
}

/// What is kept of parameters: the parts of a struct, or else the value.
#[derive(Drop)]
pub(crate) enum Held {
    Struct(Vec<Part>),
    Other(Boxed<Value>),
}
