//! What messages say.

ghost use Rattle.std.specs.Prelude.{◌≡◌, ◌%◌, ◌∷◌, [], map, pos, replicate, IfOk};
ghost use Rattle.wire_model.specs.Trees.{Fields, Items, Text, Whole, trees, view};
ghost use Rattle.load_run.specs.Messages.{answer_tree, note_tree, request_tree, say_tree};

use crate::messages::Message;
use std::alloc::{AllocError, Global};
use wire_model::Value;

/// A number, as values have it.
fn number_of(number: u64) -> i128
    ensures { result ≡ pos number }
{
    number as i128
}

/// A whole number.
fn whole(number: u64) -> Value
    ensures { view result ≡ Whole (pos number) }
{
    let number = number_of(number);
    Value::Whole(number)
}

/// A text of these bytes.
fn text_of(bytes: Vec<u8>) -> Value
    ensures { view result ≡ Text bytes.items }
{
    Value::Text(bytes)
}

/// The list of these elements.
fn list_of(items: Vec<Value>) -> Value
    ensures { view result ≡ Items (trees (map view items.items)) }
{
    Value::List(items)
}

/// The struct of these fields.
fn struct_of(fields: Vec<Value>) -> Value
    ensures { view result ≡ Fields (trees (map view fields.items)) }
{
    Value::Struct(fields)
}

/// A struct of one field.
fn one_field(alloc: Global, field: Value) -> Result<Value, AllocError>
    ensures { IfOk result (λ value. view value ≡ Fields (trees (view field ∷ []))) }
{
    let mut fields = Vec::with_capacity(alloc, 1)?;
    fields.push(field)?;
    Ok(struct_of(fields))
}

/// A struct of two fields.
fn two_fields(alloc: Global, first: Value, second: Value) -> Result<Value, AllocError>
    ensures { IfOk result (λ value. view value ≡ Fields (trees (view first ∷ view second ∷ []))) }
{
    let mut fields = Vec::with_capacity(alloc, 2)?;
    fields.push(first)?;
    fields.push(second)?;
    Ok(struct_of(fields))
}

/// The parameters of a `Say` with so many letters.
fn say(alloc: Global, number: u64, letters: u64) -> Result<Value, AllocError>
    ensures { IfOk result (λ value. view value ≡ say_tree number letters) }
{
    let text = vec![in alloc; b'x'; letters as usize]?;
    two_fields(alloc, whole(number), text_of(text))
}

/// The parameters of the answer to it.
pub fn answer(alloc: Global, number: u64) -> Result<Value, AllocError>
    ensures { IfOk result (λ value. view value ≡ answer_tree number) }
{
    one_field(alloc, whole(number))
}

/// So many bytes, which are one.
fn bytes(alloc: Global, byte: u64, count: u64) -> Result<Vec<Value>, AllocError>
    ensures { IfOk result (λ bytes. map view bytes.items ≡ replicate count (Whole (pos byte))) }
{
    let mut bytes = Vec::with_capacity(alloc, count as usize)?;
    for _ in 0..count {
        bytes.push(whole(byte))?;
    }
    Ok(bytes)
}

/// The parameters of a `Note` of so many bytes.
fn note(alloc: Global, number: u64, count: u64) -> Result<Value, AllocError>
    ensures { IfOk result (λ value. view value ≡ note_tree number count) }
{
    let bytes = bytes(alloc, number % 256, count)?;
    one_field(alloc, list_of(bytes))
}

/// The parameters of a request.
pub fn request(alloc: Global, message: Message) -> Result<Value, AllocError>
    ensures { IfOk result (λ value. view value ≡ request_tree message) }
{
    if message.is_say {
        say(alloc, message.number, message.size)
    } else {
        note(alloc, message.number, message.size)
    }
}
