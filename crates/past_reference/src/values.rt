//! The indexes of handles that values name.

use std::alloc::{AllocError, Global};
use wire_model::Value;

/// Adds the indexes of handles that a value names.
#[cycle(names)]
fn add_named(value: &Value, handles: &mut Vec<u32>) -> Result<(), AllocError> {
    match value {
        Value::Handle(index) | Value::Remote { index, .. } => Ok(handles.push(*index)?),
        Value::List(items) | Value::Struct(items) => add_all_named(items, handles),
        Value::Map { keys, values } => {
            add_all_named(keys, handles)?;
            add_all_named(values, handles)
        }
        Value::Union { value, .. } => add_named(value, handles),
        Value::Bool(_)
        | Value::Whole(_)
        | Value::Text(_)
        | Value::Unknown(_)
        | Value::Endpoint(_)
        | Value::EndpointRemote { .. }
        | Value::Null => Ok(()),
    }
}

/// Adds the indexes of handles that values name.
#[cycle(names)]
fn add_all_named(values: &[Value], handles: &mut Vec<u32>) -> Result<(), AllocError> {
    for value in values {
        add_named(value, handles)?;
    }
    Ok(())
}

/// The indexes of handles that a value names.
pub fn handles_named(alloc: Global, value: &Value) -> Result<Vec<u32>, AllocError> {
    let mut handles = Vec::new(alloc);
    add_named(value, &mut handles)?;
    Ok(handles)
}
