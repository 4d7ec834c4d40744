//! Values that go out.

ghost use Rattle.std.specs.Prelude.{◌≡◌, None, IfOk, IfSome};
ghost use Rattle.wire_encoder.specs.Prepared.{HasTarget};
ghost use Rattle.wire_model.specs.Trees.{view};
ghost use Rattle.load_run.specs.Messages.{IsRefusal, answer_tree, request_target, request_tree};
ghost use Rattle.load_run.specs.steps.Doing.{AreThere, IsOutgoing};

use crate::messages::Message;
use crate::targets::{Targets, request_target};
use crate::values::{answer, request};
use mj_schema::Schema;
use script_names::NoMemory;
use std::alloc::Global;
use wire_encoder::{PrepareError, Prepared, prepare};
use wire_model::{Target, Value};

/// Nothing goes out of a value that is refused; the error is want of memory.
fn refused(why: PrepareError) -> Result<Option<Prepared>, NoMemory>
    ensures { IfOk result (λ found. (found ≡ None) × IsRefusal why) }
{
    match why {
        PrepareError::Memory => Err(NoMemory),
        PrepareError::Misfit { path: _ } => Ok(None),
        PrepareError::TooDeep { path: _ } => Ok(None),
        PrepareError::TooManyHandles { path: _ } => Ok(None),
        PrepareError::TooLong => Ok(None),
    }
}

/// A value that is prepared for a target; none where there is no target, or it is refused for it.
fn outgoing(
    alloc: Global,
    schema: &Schema,
    target: Option<Target>,
    value: Value,
) -> Result<Option<Prepared>, NoMemory>
    requires { IfSome target (HasTarget schema.now) }
    ensures { IfOk result (IsOutgoing schema.now target (view value)) }
{
    let Some(target) = target else {
        return Ok(None);
    };
    match prepare(alloc, schema, target, value) {
        Ok(prepared) => Ok(Some(prepared)),
        Err(error) => {
            let (why, _value) = error;
            refused(why)
        }
    }
}

/// The request of a message, ready to be sent; none where it doesn't go out.
pub fn request_out(
    alloc: Global,
    schema: &Schema,
    targets: Targets,
    message: Message,
) -> Result<Option<Prepared>, NoMemory>
    requires { AreThere schema.now targets }
    ensures { IfOk result (IsOutgoing schema.now (request_target targets message) (request_tree message)) }
{
    let Ok(value) = request(alloc, message) else {
        return Err(NoMemory);
    };
    outgoing(alloc, schema, request_target(targets, message), value)
}

/// The answer to a message, ready to be sent; none where it doesn't go out.
pub fn answer_out(
    alloc: Global,
    schema: &Schema,
    targets: Targets,
    message: Message,
) -> Result<Option<Prepared>, NoMemory>
    requires { AreThere schema.now targets }
    ensures { IfOk result (IsOutgoing schema.now targets.answer (answer_tree message.number)) }
{
    let Ok(value) = answer(alloc, message.number) else {
        return Err(NoMemory);
    };
    outgoing(alloc, schema, targets.answer, value)
}
