//! A payload of 67,108,864 bytes, and one of a letter more.

use crate::compiled::compiled;
use mj_schema::Schema;
use std::alloc::{AllocError, Global};
use std::test::Fail;
use wire_encoder::{PrepareError, prepare, target};
use wire_model::{MessageSide, Value};

/// What is said to.
const LISTENER: &str = "interface P { Say(string s); };";

/// As many letters as a payload has room for, behind 16 bytes of parameters and 8 of the string.
const MOST_LETTERS: usize = 67_108_840;

/// The parameters with so many letters.
fn letters(alloc: Global, count: usize) -> Result<Value, AllocError> {
    let chunk = [b'a'; 1024];
    let mut text = Vec::new(alloc);
    for _ in 0..count / 1024 {
        text.extend_from_slice(&chunk)?;
    }
    text.extend_from_slice(&chunk[..count % 1024])?;
    let mut fields = Vec::new(alloc);
    fields.push(Value::Text(text))?;
    Ok(Value::Struct(fields))
}

/// What becomes of so many letters: the payload's length, or none where it is too long and the value comes back.
fn said(alloc: Global, schema: &Schema, count: usize) -> Result<Option<usize>, Fail> {
    let Some(target) = target(schema, "P", "Say", MessageSide::Request) else {
        return Ok(Some(0));
    };
    match prepare(alloc, schema, target, letters(alloc, count)?) {
        Ok(prepared) => Ok(Some(prepared.payload.len())),
        Err((PrepareError::TooLong, Value::Struct(_))) => Ok(None),
        Err(_) => Ok(Some(1)),
    }
}

#[test]
fn a_payload_of_64_mebibytes_is_prepared_and_one_more_letter_is_too_long(
    rt: HostRuntime,
) -> Result<(), Fail> {
    let alloc = rt.alloc();
    let Some(schema) = compiled(alloc, LISTENER)? else {
        panic!(rt; "the listener is refused");
    };
    assert_eq!(rt; said(alloc, &schema, MOST_LETTERS)?, Some(67_108_864));
    assert_eq!(rt; said(alloc, &schema, MOST_LETTERS + 1)?, None);
    Ok(())
}
