//! Parameters as a history keeps them.

ghost use Rattle.std.specs.Prelude.{◌≡◌, pos, map, IfOk, IfSome};
ghost use Rattle.wire_model.specs.Trees.{Fields, Items, Text, Whole, trees, view};
ghost use Rattle.kept_values.specs.KeptTrees.{byte_tree, held_tree, part_tree};

use crate::boxed::Boxed;
use crate::copy::copy_value;
use crate::parts::{Held, Part};
use std::alloc::{AllocError, Global};
use std::marker::Model;
use wire_model::Value;

/// The parameters of a request, or those of a response, in few bytes. Contracts see the tree of their value.
#[derive(Drop)]
pub struct KeptParameters {
    held: Held,
}

impl Model for KeptParameters {
    ghost use Rattle.std.specs.Coded.{codes};
    ghost use Rattle.wire_model.specs.Trees as wire;
    ghost use Rattle.kept_values.specs.KeptTrees.{held_tree};
    ghost use Rattle.kept_values.specs.steps.TreeCodes.{tree_code};

    ghost Value = { wire.Tree };

    ghost coded = { tree_code (Prim.hlevel codes) };

    ghost view = { λ p. held_tree p.held };
}

impl KeptParameters {
    /// The parameters that are this value.
    pub fn of(alloc: Global, value: &Value) -> Result<KeptParameters, AllocError>
        ensures { IfOk result (λ kept. kept ≡ view value.now) }
    {
        let held = hold(alloc, value)?;
        Ok(KeptParameters { held })
    }

    /// Their value.
    pub fn value(&self, alloc: Global) -> Result<Value, AllocError>
        ensures { IfOk result (λ value. view value ≡ self.now) }
    {
        let value = held_value(alloc, &self.held)?;
        Ok(value)
    }
}

/// The byte that a number is; none where it is none.
fn as_byte(number: i128) -> Option<u8>
    ensures { IfSome result (λ byte. pos byte ≡ number) }
{
    if number < 0 {
        return None;
    }
    if number > 255 {
        return None;
    }
    Some(number as u8)
}

/// The int64 that a number is; none where it is none.
fn as_int64(number: i128) -> Option<i64>
    ensures { IfSome result (λ small. small ≡ number) }
{
    if -(1 << 63) <= number && number < 1 << 63 {
        Some(number as i64)
    } else {
        None
    }
}

/// The byte that a value is; none where it is none.
fn byte_in(value: &Value) -> Option<u8>
    ensures { IfSome result (λ byte. byte_tree byte ≡ view value.now) }
{
    match value {
        Value::Whole(number) => as_byte(*number),
        _ => None,
    }
}

/// The bytes that the elements of an array are; none where one of them is none.
fn bytes_in(alloc: Global, items: &[Value]) -> Result<Option<Vec<u8>>, AllocError>
    ensures { IfOk result (λ found. IfSome found (λ bytes. map byte_tree bytes.items ≡ map view items.now)) }
{
    let mut bytes = Vec::with_capacity(alloc, items.len())?;
    for item in items {
        let Some(byte) = byte_in(item) else {
            return Ok(None);
        };
        bytes.push(byte)?;
    }
    Ok(Some(bytes))
}

/// A copy of a value, apart.
fn copy_apart(alloc: Global, value: &Value) -> Result<Boxed<Value>, AllocError>
    ensures { IfOk result (λ copy. view copy ≡ view value.now) }
{
    let copy = copy_value(alloc, value)?;
    let apart = Boxed::new(alloc, copy)?;
    Ok(apart)
}

/// What is kept of a number; none where it isn't one of 64 bits.
fn number_part(number: i128) -> Option<Part>
    ensures { IfSome result (λ part. part_tree part ≡ Whole number) }
{
    match as_int64(number) {
        Some(small) => Some(Part::Whole(small)),
        None => None,
    }
}

/// What is kept of a string.
fn text_part(alloc: Global, text: &[u8]) -> Result<Option<Part>, AllocError>
    ensures { IfOk result (λ found. IfSome found (λ part. part_tree part ≡ Text text.now)) }
{
    let bytes = Vec::from_slice(alloc, text)?;
    Ok(Some(Part::Text(bytes)))
}

/// What is kept of an array; none where one of its elements is no byte.
fn bytes_part(alloc: Global, items: &[Value]) -> Result<Option<Part>, AllocError>
    ensures { IfOk result (λ found. IfSome found (λ part. part_tree part ≡ Items (trees (map view items.now)))) }
{
    let found = bytes_in(alloc, items)?;
    match found {
        Some(bytes) => Ok(Some(Part::Bytes(bytes))),
        None => Ok(None),
    }
}

/// What is kept of a field in few bytes; none where its value is kept as it is.
fn short_part(alloc: Global, value: &Value) -> Result<Option<Part>, AllocError>
    ensures { IfOk result (λ found. IfSome found (λ part. part_tree part ≡ view value.now)) }
{
    match value {
        Value::Whole(number) => Ok(number_part(*number)),
        Value::Text(text) => text_part(alloc, text.as_slice()),
        Value::List(items) => bytes_part(alloc, items),
        _ => Ok(None),
    }
}

/// A field's value, kept as it is.
fn other_part(alloc: Global, value: &Value) -> Result<Part, AllocError>
    ensures { IfOk result (λ part. part_tree part ≡ view value.now) }
{
    let copy = copy_apart(alloc, value)?;
    Ok(Part::Other(copy))
}

/// What is kept of a field.
fn hold_part(alloc: Global, value: &Value) -> Result<Part, AllocError>
    ensures { IfOk result (λ part. part_tree part ≡ view value.now) }
{
    let found = short_part(alloc, value)?;
    match found {
        Some(part) => Ok(part),
        None => other_part(alloc, value),
    }
}

/// What is kept of fields.
fn hold_parts(alloc: Global, values: &[Value]) -> Result<Vec<Part>, AllocError>
    ensures { IfOk result (λ parts. map part_tree parts.items ≡ map view values.now) }
{
    let mut parts = Vec::with_capacity(alloc, values.len())?;
    for value in values {
        let part = hold_part(alloc, value)?;
        parts.push(part)?;
    }
    Ok(parts)
}

/// What is kept of parameters that are a struct.
fn hold_struct(alloc: Global, fields: &[Value]) -> Result<Held, AllocError>
    ensures { IfOk result (λ held. held_tree held ≡ Fields (trees (map view fields.now))) }
{
    let parts = hold_parts(alloc, fields)?;
    Ok(Held::Struct(parts))
}

/// Any other parameters, kept as they are.
fn hold_other(alloc: Global, value: &Value) -> Result<Held, AllocError>
    ensures { IfOk result (λ held. held_tree held ≡ view value.now) }
{
    let copy = copy_apart(alloc, value)?;
    Ok(Held::Other(copy))
}

/// What is kept of parameters.
fn hold(alloc: Global, value: &Value) -> Result<Held, AllocError>
    ensures { IfOk result (λ held. held_tree held ≡ view value.now) }
{
    match value {
        Value::Struct(fields) => hold_struct(alloc, fields),
        _ => hold_other(alloc, value),
    }
}

/// A byte, as values have numbers.
fn number_of(byte: u8) -> i128
    ensures { result ≡ pos byte }
{
    byte as i128
}

/// The value that a byte is.
fn byte_value(byte: u8) -> Value
    ensures { view result ≡ byte_tree byte }
{
    let number = number_of(byte);
    Value::Whole(number)
}

/// The value that a number of 64 bits is.
fn whole_value(number: i64) -> Value
    ensures { view result ≡ Whole number }
{
    Value::Whole(i128::from(number))
}

/// A text of these bytes.
fn text_of(bytes: Vec<u8>) -> Value
    ensures { view result ≡ Text bytes.items }
{
    Value::Text(bytes)
}

/// The list of these elements.
fn list_of(items: Vec<Value>) -> Value
    ensures { view result ≡ Items (trees (map view items.items)) }
{
    Value::List(items)
}

/// The struct of these fields.
fn struct_of(fields: Vec<Value>) -> Value
    ensures { view result ≡ Fields (trees (map view fields.items)) }
{
    Value::Struct(fields)
}

/// The values that bytes are.
fn byte_values(alloc: Global, bytes: &[u8]) -> Result<Vec<Value>, AllocError>
    ensures { IfOk result (λ values. map view values.items ≡ map byte_tree bytes.now) }
{
    let mut values = Vec::with_capacity(alloc, bytes.len())?;
    for byte in bytes {
        values.push(byte_value(*byte))?;
    }
    Ok(values)
}

/// The text of the bytes that are kept of a string.
fn text_value(alloc: Global, bytes: &[u8]) -> Result<Value, AllocError>
    ensures { IfOk result (λ value. view value ≡ Text bytes.now) }
{
    let text = Vec::from_slice(alloc, bytes)?;
    Ok(text_of(text))
}

/// The array of the bytes that are kept of one.
fn array_value(alloc: Global, bytes: &[u8]) -> Result<Value, AllocError>
    ensures { IfOk result (λ value. view value ≡ Items (trees (map byte_tree bytes.now))) }
{
    let values = byte_values(alloc, bytes)?;
    Ok(list_of(values))
}

/// The value that a part is kept of.
fn part_value(alloc: Global, part: &Part) -> Result<Value, AllocError>
    ensures { IfOk result (λ value. view value ≡ part_tree part.now) }
{
    match part {
        Part::Whole(number) => Ok(whole_value(*number)),
        Part::Text(bytes) => text_value(alloc, bytes.as_slice()),
        Part::Bytes(bytes) => array_value(alloc, bytes),
        Part::Other(value) => copy_value(alloc, value.get()),
    }
}

/// The values that parts are kept of.
fn part_values(alloc: Global, parts: &[Part]) -> Result<Vec<Value>, AllocError>
    ensures { IfOk result (λ values. map view values.items ≡ map part_tree parts.now) }
{
    let mut values = Vec::with_capacity(alloc, parts.len())?;
    for part in parts {
        let value = part_value(alloc, part)?;
        values.push(value)?;
    }
    Ok(values)
}

/// The struct of the fields that parts are kept of.
fn struct_value(alloc: Global, parts: &[Part]) -> Result<Value, AllocError>
    ensures { IfOk result (λ value. view value ≡ Fields (trees (map part_tree parts.now))) }
{
    let fields = part_values(alloc, parts)?;
    Ok(struct_of(fields))
}

/// The value of all parameters.
fn held_value(alloc: Global, held: &Held) -> Result<Value, AllocError>
    ensures { IfOk result (λ value. view value ≡ held_tree held.now) }
{
    match held {
        Held::Struct(parts) => struct_value(alloc, parts),
        Held::Other(value) => copy_value(alloc, value.get()),
    }
}
