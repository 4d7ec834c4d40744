//! Values and their messages.

ghost use Rattle.std.specs.Prelude.{◌≡◌, IfOk, IfSome, true};
ghost use Rattle.bind_model.specs.WireOf.{wire_of};
ghost use Rattle.wire_encoder.specs.Prepared.{HasTarget, IsPrepared};

use anyhow::{Result, bail};
use message_validator::{Checked, check};
use mj_base::Fault;
use mj_schema::{Kind, KindNode, Schema};
use std::alloc::Global;
use value_text::write_value;
use view_text::write_view;
use wire_decoder::decode;
use wire_encoder::{Head, Prepared, prepare, seal};
use wire_model::{Expected, MessageSide, Target, Value};
use wire_view::root;

/// The ordinal of the method that is called.
const BUY: u32 = 0;

/// The ordinals of what is bought, and of how many.
const ITEM: u32 = 0;

const COUNT: u32 = 1;

/// The request or the response of the method; none where it isn't there or has no response.
#[tactic(auto, unfolding(bind_model::specs::WireOf::wire_of))]
fn target_of(schema: &Schema, interface: u32, side: MessageSide) -> Option<Target>
    ensures there { IfSome result (HasTarget schema.now) }
    ensures responds { IfSome result (λ target. (wire_of schema.now).responds target.interface target.method ≡ true) }
{
    let method = schema.method(interface, BUY)?;
    let _response = method.response?;
    Some(Target {
        interface,
        method: BUY,
        side,
    })
}

/// Parameters of that method, ready to be sent.
fn prepared(
    alloc: Global,
    schema: &Schema,
    interface: u32,
    side: MessageSide,
    fields: Vec<Value>,
) -> Result<Prepared>
    ensures prepared { IfOk result (IsPrepared schema.now) }
    ensures responds { IfOk result (λ made. (wire_of schema.now).responds made.target.interface made.target.method ≡ true) }
{
    let Some(target) = target_of(schema, interface, side) else {
        bail!("the method has no response")
    };
    match prepare(alloc, schema, target, Value::Struct(fields)) {
        Ok(prepared) => Ok(prepared),
        Err((error, _value)) => bail!("the value is refused: {error}"),
    }
}

/// An order of so many of an item; without a number it is null.
pub fn order(
    alloc: Global,
    schema: &Schema,
    interface: u32,
    item: &str,
    count: Option<i32>,
) -> Result<Prepared>
    ensures prepared { IfOk result (IsPrepared schema.now) }
    ensures responds { IfOk result (λ made. (wire_of schema.now).responds made.target.interface made.target.method ≡ true) }
{
    let mut fields = Vec::new(alloc);
    fields.push(Value::Text(Vec::from_slice(alloc, item.as_bytes())?))?;
    fields.push(match count {
        Some(count) => Value::Whole(i128::from(count)),
        None => Value::Null,
    })?;
    prepared(alloc, schema, interface, MessageSide::Request, fields)
}

/// The answer to an order: 250 cents for each that it asks for, which is one where its number is null.
pub fn bill(alloc: Global, schema: &Schema, interface: u32, order: &Value) -> Result<Prepared>
    ensures prepared { IfOk result (IsPrepared schema.now) }
{
    let count = whole_in(order, 1).unwrap_or(1);
    let mut fields = Vec::new(alloc);
    fields.push(Value::Whole(count.saturating_mul(250)))?;
    prepared(alloc, schema, interface, MessageSide::Response, fields)
}

/// The whole number that a struct has in a field; none where that is null.
pub fn whole_in(value: &Value, field: usize) -> Option<i128> {
    let Value::Struct(fields) = value else {
        return None;
    };
    match fields.get(field) {
        Some(Value::Whole(number)) => Some(*number),
        _ => None,
    }
}

/// The message of what was prepared, for the first endpoint of a pipe. A core seals what it sends by itself.
pub fn sealed(alloc: Global, prepared: &Prepared) -> Result<Vec<u8>> {
    if prepared.endpoints.len() > 0 {
        bail!("an endpoint has no id without a pipe");
    }
    let head = Head {
        interface_id: 0,
        request_id: 1,
        moment: None,
        ids: &[],
    };
    Ok(seal(alloc, prepared, &head)?)
}

/// The text of a message that was checked, read where it lies.
fn text_of(alloc: Global, checked: &Checked<'_>) -> Result<String> {
    let kind = Kind::new(KindNode::Struct {
        number: checked.number,
        nullable: false,
    });
    let text = write_view(alloc, checked.schema, &kind, &root(checked))?;
    match String::from_utf8(text) {
        Ok(text) => Ok(text),
        Err(_) => bail!("a value's text is UTF-8"),
    }
}

/// The text of the value of a message that was checked. The value is a copy, which outlives the message.
fn copy_of(alloc: Global, checked: &Checked<'_>) -> Result<String> {
    let value = decode(alloc, checked)?;
    let kind = Kind::new(KindNode::Struct {
        number: checked.number,
        nullable: false,
    });
    let text = write_value(alloc, checked.schema, &kind, &value)?;
    match String::from_utf8(text) {
        Ok(text) => Ok(text),
        Err(_) => bail!("a value's text is UTF-8"),
    }
}

/// The item of an order that was checked, and how many it asks for, one where it doesn't say.
fn asked_for<'a>(checked: &Checked<'a>) -> (&'a str, i128) {
    let order = root(checked);
    let item = order.text(ITEM).unwrap_or("nothing");
    let count = order.number(COUNT).unwrap_or(1);
    (item, count)
}

/// The text of what a request says, what it asks for, and the text of its value, or its first fault.
pub fn read(
    alloc: Global,
    schema: &Schema,
    interface: u32,
    bytes: &[u8],
) -> Result<Result<String, Fault>> {
    let expected = Expected {
        interface,
        side: MessageSide::Request,
    };
    match check(schema, expected, bytes, 0) {
        Ok(checked) => {
            let text = text_of(alloc, &checked)?;
            let copy = copy_of(alloc, &checked)?;
            let (item, count) = asked_for(&checked);
            Ok(Ok(format!(in alloc; "{text}: {count} of {item}; decoded {copy}")?))
        }
        Err(fault) => Ok(Err(fault)),
    }
}
