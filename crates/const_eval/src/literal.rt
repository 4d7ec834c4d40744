//! The literals that are written.

ghost use Rattle.std.specs.Prelude.{◌≡◌, IfOk};
ghost use Rattle.const_eval.specs.Origins.{literal_of};

use const_meanings::Literal;
use mojom_ast::Value;
use std::alloc::{AllocError, Global};

/// A copy of a literal; none exactly of a name.
pub fn literal_of(alloc: Global, value: &Value) -> Result<Option<Literal>, AllocError>
    ensures { IfOk result (λ literal. literal ≡ literal_of value.now) }
{
    match value {
        Value::String(written) => Ok(Some(Literal::Text(written.bytes.copy(alloc)?))),
        Value::Bool { value, .. } => Ok(Some(Literal::Bool(*value))),
        Value::Number {
            negative,
            magnitude,
            ..
        } => Ok(Some(Literal::Number {
            negative: *negative,
            magnitude: *magnitude,
        })),
        Value::Name(_) => Ok(None),
    }
}
