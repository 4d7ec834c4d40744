//! Targets by the names of interfaces and methods.

ghost use Rattle.std.specs.Prelude.{◌≡◌, IfSome};
ghost use Rattle.wire_encoder.specs.Prepared.{HasTarget};
ghost use Rattle.wire_encoder.specs.Targets.{target_of, target_named};

use mj_schema::{MethodRow, Schema};
use wire_model::{MessageSide, Target};

/// The messages of a method of the interface of this number; none exactly where it has no response and
/// its responses are meant.
fn target_of(interface: u32, method: &MethodRow, side: MessageSide) -> Option<Target>
    ensures { result ≡ target_of interface side method.now }
{
    let _number = match side {
        MessageSide::Request => method.request,
        MessageSide::Response => method.response?,
    };
    Some(Target {
        interface,
        method: method.ordinal,
        side,
    })
}

/// The target of a side's messages of a method, by the full name of its interface and its own name there;
/// none exactly where the schema has no such method, or it has no response and its responses are meant.
pub fn target(schema: &Schema, interface: &str, method: &str, side: MessageSide) -> Option<Target>
    ensures named { result ≡ target_named schema.now interface.now method.now side }
    ensures there { IfSome result (HasTarget schema.now) }
{
    let number = schema.find_interface(interface)?;
    let row = schema.find_method(number, method)?;
    target_of(number, row, side)
}
