//! How bytes, methods, parameters and what is sent stand in a line.

ghost use Rattle.std.specs.Prelude.{◌≡◌, ◌++◌, OnOk, false};
ghost use Rattle.mj_schema.specs.KindTrees.{StructKind};
ghost use Rattle.wire_encoder.specs.Prepared.{parameters_of, kind_for};
ghost use Rattle.history_text.specs.History.{hex_text, message_text, outgoing_text};

use crate::names::{name_of_method, push_interface};
use crate::parts::push_shown;
use crate::shown_lists::ShownTokens;
use bind_model::{KeptParameters, Outgoing};
use mj_schema::{Kind, KindNode, Schema};
use std::alloc::{AllocError, Global};
use value_text::write_value;
use wire_model::{MessageSide, Target};

/// Adds a text.
pub(crate) fn push_text(out: &mut Vec<u8>, text: &str) -> Result<(), AllocError>
    ensures { OnOk result (out.new.items ≡ out.old.items ++ text.now) }
{
    out.extend_from_slice(text.as_bytes())
}

/// Adds bytes in lower-case hexadecimal, `-` where there is none.
pub(crate) fn push_hex(alloc: Global, out: &mut Vec<u8>, bytes: &[u8]) -> Result<(), AllocError>
    ensures { OnOk result (out.new.items ≡ out.old.items ++ hex_text bytes.now) }
{
    if bytes.is_empty() {
        return push_text(out, "-");
    }
    let digits = hex::encode(alloc, bytes)?;
    push_text(out, digits.as_str())
}

/// The number of the struct of a target's parameters, 0 where the schema lacks it.
fn parameters_number(schema: &Schema, target: Target) -> u32
    ensures { kind_for (parameters_of schema.now target) ≡ StructKind result false }
{
    let Some(method) = schema.method(target.interface, target.method) else {
        return 0;
    };
    match target.side {
        MessageSide::Request => method.request,
        MessageSide::Response => match method.response {
            Some(number) => number,
            None => 0,
        },
    }
}

/// The kind of a target's parameters.
pub(crate) fn parameters_kind(schema: &Schema, target: Target) -> Kind
    ensures { result ≡ kind_for (parameters_of schema.now target) }
{
    Kind::new(KindNode::Struct {
        number: parameters_number(schema, target),
        nullable: false,
    })
}

/// Adds a method and its parameters.
pub(crate) fn push_message(
    alloc: Global,
    out: &mut Vec<u8>,
    schema: &Schema,
    target: Target,
    parameters: &KeptParameters,
) -> Result<(), AllocError>
    ensures { OnOk result (out.new.items ≡ out.old.items ++ message_text schema.now target parameters.now) }
{
    push_interface(out, schema, target.interface)?;
    push_text(out, ".")?;
    push_text(out, name_of_method(schema, target.interface, target.method))?;
    push_text(out, " ")?;
    let kind = parameters_kind(schema, target);
    let value = parameters.value(alloc)?;
    let text = write_value(alloc, schema, &kind, &value)?;
    out.extend_from_slice(text.as_slice())
}

/// Adds what a call or an answer sends.
pub(crate) fn push_outgoing(
    alloc: Global,
    out: &mut Vec<u8>,
    schema: &Schema,
    outgoing: &Outgoing,
) -> Result<(), AllocError>
    ensures { OnOk result (out.new.items ≡ out.old.items ++ outgoing_text schema.now outgoing.now) }
{
    push_message(alloc, out, schema, outgoing.target, &outgoing.parameters)?;
    let tokens = ShownTokens {
        handles: outgoing.handles.as_slice(),
        pendings: outgoing.pendings.as_slice(),
    };
    push_shown(alloc, out, " ", tokens)
}
