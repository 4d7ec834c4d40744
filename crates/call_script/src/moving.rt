//! What is asked of the tokens of data pipes.

ghost use Rattle.std.specs.Prelude.{◌≡◌, IfOk, true};
ghost use Rattle.script_words.specs.Letters.{is_name, IsHexOf, IsHexWord};
ghost use Rattle.script_forms.specs.Forms.{Flow as a_flow, IsMoved};
ghost use Rattle.script_forms.specs.Views.{moved_view};
ghost use Rattle.call_script.specs.Script.{IsFlowOf};
ghost use Rattle.call_script.specs.steps.Commands.{Says};

use crate::commands::{Stop, named};
use crate::name_table::Scope;
use crate::script::Command;
use bind_model::Flow;
use mj_base::Items;
use mj_schema::Schema;
use script_forms::{Moved, hex_bytes};
use std::alloc::{AllocError, Global};

/// The bytes of a word that spells some.
fn bytes_of(alloc: Global, word: &[u8]) -> Result<Items<u8>, AllocError>
    requires { IsHexWord word.now }
    ensures { IfOk result (IsHexOf word.now) }
{
    match hex_bytes(alloc, word)? {
        Some(bytes) => Ok(bytes),
        None => unreachable!(),
    }
}

/// What is moved, with the bytes of its word.
fn flow_of(alloc: Global, moved: &Moved) -> Result<Flow, AllocError>
    requires { IsMoved (moved_view moved.now) }
    ensures { IfOk result (IsFlowOf (moved_view moved.now)) }
{
    match moved {
        Moved::Put(word, all) => Ok(Flow::Put(bytes_of(alloc, *word)?, *all)),
        Moved::Get(count, all) => Ok(Flow::Get(*count, *all)),
        Moved::BeginPut => Ok(Flow::BeginPut),
        Moved::EndPut(word) => Ok(Flow::EndPut(bytes_of(alloc, *word)?)),
        Moved::BeginGet => Ok(Flow::BeginGet),
        Moved::EndGet(count) => Ok(Flow::EndGet(*count)),
    }
}

/// What it asks to move bytes at the token of this name.
pub(crate) fn flow_command(
    alloc: Global,
    schema: &Schema,
    scope: &Scope,
    token: &[u8],
    moved: &Moved,
) -> Result<Command, Stop>
    requires token { is_name token.now ≡ true }
    requires moved { IsMoved (moved_view moved.now) }
    ensures { Says schema.now scope.now (a_flow token.now (moved_view moved.now)) result }
{
    let token = named(alloc, scope, token)?;
    match flow_of(alloc, moved) {
        Ok(flow) => Ok(Command::Flow(token, flow)),
        Err(_) => Err(Stop::Memory),
    }
}
