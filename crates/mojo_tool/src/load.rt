//! From a seed and a number of messages to the numbers of a load, or to why there are none.

ghost use Rattle.std.specs.Prelude.{IfErr, IfOk};
ghost use Rattle.mojom_compile.specs.Schemas.{IsOfGiven};
ghost use Rattle.load_command.specs.LoadFile.{load_sources};
ghost use Rattle.load_command.specs.LoadLine.{HasCounts};
ghost use Rattle.mojo_tool.specs.steps.Loads.{NotLoaded, NotTabledLoad};

use crate::decide::Stop;
use crate::refusal::ToolRefusal;
use command_line::MessageCount;
use load_command::load_text;
use mj_base::Items;
use mojom_compile::SchemaError;
use std::alloc::Global;

/// The refusal of the file of a load.
fn load_refused<'a>(error: SchemaError) -> Stop<'a>
    requires { IsOfGiven load_sources error }
    ensures { NotTabledLoad error result }
{
    match error {
        SchemaError::Unread {
            file: _file,
            refusal,
        } => { Stop::Refused(ToolRefusal::Refused("load", refusal)) }
        SchemaError::Refused(refusal) => Stop::Refused(ToolRefusal::Rejected {
            name: "load",
            at: refusal.at,
            cause: refusal.cause,
        }),
        SchemaError::Memory => Stop::NoMemory,
    }
}

/// The text of the numbers of a load that a seed and a number of messages ask for. No file is fetched.
pub fn decide_load<'a>(
    alloc: Global,
    seed: u64,
    messages: MessageCount,
) -> Result<Items<u8>, Stop<'a>>
    ensures text { IfOk result (HasCounts seed messages.count) }
    ensures stop { IfErr result NotLoaded }
{
    match load_text(alloc, seed, messages.count) {
        Ok(text) => Ok(text),
        Err(error) => Err(load_refused(error)),
    }
}
