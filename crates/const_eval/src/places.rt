//! Where things stand in a file, in bytes from 0.

ghost use Rattle.std.specs.Prelude.{◌≡◌};
ghost use Rattle.name_refusals.specs.NameRefusals.{place_of};
ghost use Rattle.const_eval.specs.Refused.{place_of_value};

use mojom_ast::{Identifier, Value};

/// Where a name stands: its first identifier.
fn place_of(parts: &[Identifier]) -> u64
    ensures { result ≡ place_of parts.now }
{
    match parts {
        [part, ..] => part.span.start,
        [] => 0,
    }
}

/// Where a value stands: its first token.
pub fn place_of_value(value: &Value) -> u64
    ensures { result ≡ place_of_value value.now }
{
    match value {
        Value::String(written) => written.span.start,
        Value::Bool { span, .. } => span.start,
        Value::Number { span, .. } => span.start,
        Value::Name(name) => place_of(name.parts.as_slice()),
    }
}
