//! Whether two values are the same.

use std::alloc::{AllocError, Global};
use wire_model::Value;

/// How many values two values have at most.
const MOST_VALUES: usize = 1_000_000;

/// Two values that are to be the same.
#[derive(Clone, Copy)]
struct Pair<'a> {
    one: &'a Value,
    two: &'a Value,
}

/// Adds the pairs of two lists, and answers whether they are equally long.
fn push_lists<'a>(
    one: &'a [Value],
    two: &'a [Value],
    pairs: &mut Vec<Pair<'a>>,
) -> Result<bool, AllocError> {
    for (one, two) in one.iter().zip(two) {
        pairs.push(Pair { one, two })?;
    }
    Ok(one.len() == two.len())
}

/// Whether two values that hold no others are the same.
fn are_same_leaves(one: &Value, two: &Value) -> bool {
    match (one, two) {
        (Value::Bool(one), Value::Bool(two)) => one == two,
        (Value::Whole(one), Value::Whole(two)) => one == two,
        (Value::Text(one), Value::Text(two)) => one.as_slice() == two.as_slice(),
        (Value::Unknown(one), Value::Unknown(two))
        | (Value::Handle(one), Value::Handle(two))
        | (Value::Endpoint(one), Value::Endpoint(two)) => one == two,
        (
            Value::Remote { index, version },
            Value::Remote {
                index: other_index,
                version: other_version,
            },
        )
        | (
            Value::EndpointRemote { index, version },
            Value::EndpointRemote {
                index: other_index,
                version: other_version,
            },
        ) => index == other_index && version == other_version,
        (Value::Null, Value::Null) => true,
        _ => false,
    }
}

/// Whether two values are the same but for what they hold, whose pairs are added.
fn are_alike<'a>(pair: Pair<'a>, pairs: &mut Vec<Pair<'a>>) -> Result<bool, AllocError> {
    match (pair.one, pair.two) {
        (Value::List(one), Value::List(two)) | (Value::Struct(one), Value::Struct(two)) => {
            push_lists(one, two, pairs)
        }
        (
            Value::Map { keys, values },
            Value::Map {
                keys: other_keys,
                values: other_values,
            },
        ) => Ok(push_lists(keys, other_keys, pairs)? && push_lists(values, other_values, pairs)?),
        (
            Value::Union { tag, value },
            Value::Union {
                tag: other_tag,
                value: other_value,
            },
        ) => {
            pairs.push(Pair {
                one: value,
                two: other_value,
            })?;
            Ok(tag == other_tag)
        }
        (one, two) => Ok(are_same_leaves(one, two)),
    }
}

/// Whether two values are the same.
pub fn are_same(alloc: Global, one: &Value, two: &Value) -> Result<bool, AllocError> {
    let mut pairs = Vec::new(alloc);
    pairs.push(Pair { one, two })?;
    for _ in 0..MOST_VALUES {
        match pairs.pop() {
            None => return Ok(true),
            Some(pair) => {
                if !are_alike(pair, &mut pairs)? {
                    return Ok(false);
                }
            }
        }
    }
    Ok(false)
}
