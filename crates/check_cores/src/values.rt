//! What is sent: each method has one value.

ghost use Rattle.std.specs.Prelude.{IfOk, IfSome};
ghost use Rattle.wire_encoder.specs.Prepared.{HasTarget, IsPrepared};

use crate::moves::Method;
use mj_schema::{KindNode, Schema};
use std::alloc::{AllocError, Global};
use wire_encoder::{Prepared, prepare};
use wire_model::{MessageSide, Target, Value};

/// How many handles and endpoints were named.
#[derive(Drop)]
struct Named {
    handles: u32,
    endpoints: u32,
}

/// The value of a kind, which names the next handle or endpoint.
fn value_of(kind: &KindNode, named: &mut Named) -> Value {
    match kind {
        KindNode::Handle { .. } => {
            let index = named.handles;
            named.handles = index.saturating_add(1);
            Value::Handle(index)
        }
        KindNode::AssociatedRemote { .. } => {
            let index = named.endpoints;
            named.endpoints = index.saturating_add(1);
            Value::EndpointRemote { index, version: 0 }
        }
        KindNode::AssociatedReceiver { .. } => {
            let index = named.endpoints;
            named.endpoints = index.saturating_add(1);
            Value::Endpoint(index)
        }
        _ => Value::Whole(7),
    }
}

/// A target, where there is such a method, and a response of it if it is one; and the number of the struct of its
/// parameters.
fn known(schema: &Schema, target: Target) -> Option<(Target, u32)>
    ensures { IfSome result (λ found. HasTarget schema.now found.0) }
{
    let method = schema.method(target.interface, target.method)?;
    match target.side {
        MessageSide::Request => Some((target, method.request)),
        MessageSide::Response => match method.response {
            Some(number) => Some((target, number)),
            None => None,
        },
    }
}

/// The value of the struct of a number.
fn parameters(alloc: Global, schema: &Schema, number: u32) -> Result<Value, AllocError> {
    let mut fields = Vec::new(alloc);
    let mut named = Named {
        handles: 0,
        endpoints: 0,
    };
    if let Some(row) = schema.structs.as_slice().get(number as usize) {
        for field in row.fields.as_slice() {
            fields.push(value_of(field.kind.node(), &mut named))?;
        }
    }
    Ok(Value::Struct(fields))
}

/// What a call or an answer of a method sends; none where there is no such method.
pub fn prepared(
    alloc: Global,
    schema: &Schema,
    method: Method,
    side: MessageSide,
) -> Result<Option<Prepared>, AllocError>
    ensures { IfOk result (λ found. IfSome found (IsPrepared schema.now)) }
{
    let Method(interface, method) = method;
    let target = Target {
        interface,
        method,
        side,
    };
    let Some((target, number)) = known(schema, target) else {
        return Ok(None);
    };
    let value = parameters(alloc, schema, number)?;
    match prepare(alloc, schema, target, value) {
        Ok(prepared) => Ok(Some(prepared)),
        Err(_refused) => Ok(None),
    }
}
