//! Copies of values.

ghost use Rattle.std.specs.Prelude.{◌≡◌, map, IfOk};
ghost use Rattle.wire_model.specs.Trees.{view};

use std::alloc::{AllocError, Global};
use wire_model::Value;

/// A value of the same tree.
#[cycle(copy)]
pub fn copy_value(alloc: Global, value: &Value) -> Result<Value, AllocError>
    ensures { IfOk result (λ other. view other ≡ view value.now) }
{
    match value {
        Value::Bool(flag) => Ok(Value::Bool(*flag)),
        Value::Whole(number) => Ok(Value::Whole(*number)),
        Value::Text(text) => Ok(Value::Text(Vec::from_slice(alloc, text.as_slice())?)),
        Value::List(items) => Ok(Value::List(copy_values(alloc, items)?)),
        Value::Map { keys, values } => {
            let keys = copy_values(alloc, keys)?;
            let values = copy_values(alloc, values)?;
            Ok(Value::Map { keys, values })
        }
        Value::Struct(fields) => Ok(Value::Struct(copy_values(alloc, fields)?)),
        Value::Union { tag, value } => {
            let held = copy_value(alloc, value)?;
            Ok(Value::Union {
                tag: *tag,
                value: Box::new(alloc, held)?,
            })
        }
        Value::Unknown(tag) => Ok(Value::Unknown(*tag)),
        Value::Handle(index) => Ok(Value::Handle(*index)),
        Value::Remote { index, version } => Ok(Value::Remote {
            index: *index,
            version: *version,
        }),
        Value::Endpoint(index) => Ok(Value::Endpoint(*index)),
        Value::EndpointRemote { index, version } => Ok(Value::EndpointRemote {
            index: *index,
            version: *version,
        }),
        Value::Null => Ok(Value::Null),
    }
}

/// Values of the same trees.
#[cycle(copy)]
fn copy_values(alloc: Global, values: &[Value]) -> Result<Vec<Value>, AllocError>
    ensures { IfOk result (λ copies. map view copies.items ≡ map view values.now) }
{
    let mut copies = Vec::with_capacity(alloc, values.len())?;
    for value in values {
        copies.push(copy_value(alloc, value)?)?;
    }
    Ok(copies)
}
