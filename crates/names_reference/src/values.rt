//! What constants and enumerators mean.

use crate::look_up::{Given, meaning};
use crate::things::Origin;
use mj_base::Text;
use mojom_ast::Value;
use std::alloc::{AllocError, Global};

/// What a thing means.
#[derive(Clone, Copy, PartialEq, Eq)]
pub enum Found<'a> {
    Text(&'a [u8]),
    Bool(bool),
    Number(i128),
    /// That of a constant of `float` or `double`.
    Float,
    /// It needs itself.
    Circular,
    /// It has no value.
    Nothing,
}

/// What is written; nothing of a name.
fn literal(value: &Value) -> Found<'_> {
    match value {
        Value::String(written) => Found::Text(written.bytes.as_slice()),
        Value::Bool { value, .. } => Found::Bool(*value),
        Value::Number {
            negative,
            magnitude,
            ..
        } => {
            let number = i128::from(*magnitude);
            Found::Number(if *negative { -number } else { number })
        }
        Value::Name(_) => Found::Nothing,
    }
}

/// What so much more than a value is: nothing is more than what is no number.
fn counted_on(found: Found<'_>, more: u32) -> Found<'_> {
    match found {
        Found::Number(number) => Found::Number(number.saturating_add(i128::from(more))),
        _ if more == 0 => found,
        _ => Found::Nothing,
    }
}

/// What the thing of this number means: from it one goes on to what it needs, and to what that needs, for
/// as many steps as there are things, until a value is written or the way comes back to it.
pub fn value<'a>(alloc: Global, given: Given<'a>, thing: usize) -> Result<Found<'a>, AllocError> {
    let mut at = thing;
    let mut more: u32 = 0;
    for _ in given.things {
        let Some(one) = given.things.get(at) else {
            return Ok(Found::Nothing);
        };
        match one.origin {
            Origin::Written(Value::Name(name)) => {
                match meaning(alloc, given, one.file, &one.enclosing, name)? {
                    Some(other) => at = other,
                    None => return Ok(Found::Nothing),
                }
            }
            Origin::Next => {
                at = at.saturating_sub(1);
                more = more.saturating_add(1);
            }
            Origin::Written(written) => return Ok(counted_on(literal(written), more)),
            Origin::Float => return Ok(counted_on(Found::Float, more)),
            Origin::First => return Ok(counted_on(Found::Number(0), more)),
            Origin::Nothing => return Ok(Found::Nothing),
        }
        if at == thing {
            return Ok(Found::Circular);
        }
    }
    Ok(Found::Nothing)
}

/// What a value is, in the file of this number and within the definition of this full name.
pub fn value_of<'a>(
    alloc: Global,
    given: Given<'a>,
    file: usize,
    enclosing: &Option<Text>,
    written: &'a Value,
) -> Result<Found<'a>, AllocError> {
    let Value::Name(name) = written else {
        return Ok(literal(written));
    };
    match meaning(alloc, given, file, enclosing, name)? {
        Some(thing) => value(alloc, given, thing),
        None => Ok(Found::Nothing),
    }
}
