//! Copies of what was prepared.

ghost use Rattle.std.specs.Prelude.{◌≡◌, IfOk};
ghost use Rattle.mj_schema.specs.declared.schema.Schema.{Schema};
ghost use Rattle.wire_encoder.specs.Prepared.{IsPrepared};
ghost use Rattle.wire_model.specs.Trees.{view};

use bind_model::copy_value;
use std::alloc::{AllocError, Global};
use wire_encoder::Prepared;

/// What is the same as prepared.
pub fn copy_prepared(alloc: Global, prepared: &Prepared) -> Result<Prepared, AllocError>
    ensures target { IfOk result (λ other. other.target ≡ prepared.now.target) }
    ensures value { IfOk result (λ other. view other.value ≡ view prepared.now.value) }
    ensures prepared { IfOk result (λ other. (schema : Schema) → IsPrepared schema prepared.now → IsPrepared schema other) }
{
    Ok(Prepared {
        target: prepared.target,
        value: copy_value(alloc, &prepared.value)?,
        payload: Vec::from_slice(alloc, prepared.payload.as_slice())?,
        flags: prepared.flags,
        handles: prepared.handles,
        endpoints: Vec::from_slice(alloc, prepared.endpoints.as_slice())?,
    })
}
