//! The endpoints that parameters name, each with what it is by its kind.

use mj_schema::{KindNode, Schema};
use std::alloc::{AllocError, Global};
use wire_encoder::{EndpointSide, WantedEndpoint};
use wire_model::{MessageSide, Target, Value};

/// An endpoint that is named, by its place among the ids.
#[derive(Clone, Copy)]
pub struct Named {
    pub place: u32,
    pub endpoint: WantedEndpoint,
}

/// The endpoint that a value stands for by itself.
fn itself(kind: &KindNode, value: &Value) -> Option<Named> {
    let (place, side, interface) = match (kind, value) {
        (KindNode::AssociatedReceiver { interface, .. }, Value::Endpoint(place)) => {
            (*place, EndpointSide::Receiver, *interface)
        }
        (KindNode::AssociatedRemote { interface, .. }, Value::EndpointRemote { index, .. }) => {
            (*index, EndpointSide::Remote, *interface)
        }
        _ => return None,
    };
    Some(Named {
        place,
        endpoint: WantedEndpoint { side, interface },
    })
}

/// Adds the endpoints that a value names.
#[cycle(kinds)]
fn add(
    value: &Value,
    schema: &Schema,
    kind: &KindNode,
    named: &mut Vec<Named>,
) -> Result<(), AllocError> {
    match (kind, value) {
        (KindNode::Array { of, .. }, Value::List(items)) => add_each(items, schema, of, named),
        (KindNode::Map { key, value: of, .. }, Value::Map { keys, values }) => {
            add_each(keys, schema, key, named)?;
            add_each(values, schema, of, named)
        }
        (KindNode::Struct { number, .. }, Value::Struct(fields)) => {
            add_fields(fields, schema, *number, named)
        }
        (KindNode::Union { number, .. }, Value::Union { tag, value: held }) => {
            match held_kind(schema, *number, *tag) {
                Some(of) => add(held, schema, of, named),
                None => Ok(()),
            }
        }
        _ => match itself(kind, value) {
            Some(one) => Ok(named.push(one)?),
            None => Ok(()),
        },
    }
}

/// Adds the endpoints that elements name.
#[cycle(kinds)]
fn add_each(
    items: &[Value],
    schema: &Schema,
    of: &KindNode,
    named: &mut Vec<Named>,
) -> Result<(), AllocError> {
    for item in items {
        add(item, schema, of, named)?;
    }
    Ok(())
}

/// Adds the endpoints that the fields of a struct name.
#[cycle(kinds)]
fn add_fields(
    fields: &[Value],
    schema: &Schema,
    number: u32,
    named: &mut Vec<Named>,
) -> Result<(), AllocError> {
    for (place, field) in fields.iter().enumerate() {
        if let Some(kind) = field_kind(schema, number, place) {
            add(field, schema, kind, named)?;
        }
    }
    Ok(())
}

/// The kind of a field of a struct, by its ordinal.
fn field_kind(schema: &Schema, number: u32, place: usize) -> Option<&KindNode> {
    let row = schema.structs.as_slice().get(number as usize)?;
    let field = row.fields.as_slice().get(place)?;
    Some(field.kind.node())
}

/// The kind of what a union holds under a tag.
fn held_kind(schema: &Schema, number: u32, tag: u32) -> Option<&KindNode> {
    let row = schema.unions.as_slice().get(number as usize)?;
    let field = row.fields.as_slice().iter().find(|field| field.tag == tag)?;
    Some(field.kind.node())
}

/// The number of the struct of a target's parameters.
fn struct_of(schema: &Schema, target: Target) -> Option<u32> {
    let method = schema.method(target.interface, target.method)?;
    match target.side {
        MessageSide::Request => Some(method.request),
        MessageSide::Response => method.response,
    }
}

/// The endpoints that the parameters of a target name, in order.
pub fn endpoints_named(
    alloc: Global,
    schema: &Schema,
    target: Target,
    parameters: &Value,
) -> Result<Vec<Named>, AllocError> {
    let mut named = Vec::new(alloc);
    if let (Some(number), Value::Struct(fields)) = (struct_of(schema, target), parameters) {
        add_fields(fields, schema, number, &mut named)?;
    }
    Ok(named)
}
