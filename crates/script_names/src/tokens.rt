//! What is sent: the handles and the pendings that go with a message.

ghost use Rattle.std.specs.Prelude.{◌≡◌, Some, IfOk, IfSome, is_some};
ghost use Rattle.mj_schema.specs.declared.schema.Schema.{Schema};
ghost use Rattle.wire_encoder.specs.Prepared.{IsPrepared};
ghost use Rattle.bind_model.specs.Plain.{asked_of, IsOf};
ghost use Rattle.script_names.specs.Settling.{TookFor};
ghost use Rattle.script_names.specs.Held.{held_at};
ghost use Rattle.script_names.specs.Tables.{taken_from};
ghost use Rattle.script_names.specs.steps.Tokens.{HasRoomOf, TookTokens, answered, both, called, written};

use crate::copies::copy_prepared;
use crate::names::Names;
use crate::no_memory::NoMemory;
use crate::rooms::Rooms;
use bind_model::{Command, PendingList};
use call_script::NameId;
use handle_table::Handles;
use mj_base::{EndId, Items};
use std::alloc::Global;
use wire_encoder::Prepared;

/// Takes the handles and the pendings that a line's list names; none, and nothing is taken, where one of
/// them isn't held.
fn take_tokens(
    rooms: &mut Rooms,
    alloc: Global,
    names: &Names,
) -> Result<Option<(Handles, PendingList)>, NoMemory>
    ensures tokens { IfOk result (λ taken. taken ≡ both (taken_from rooms.old.handles.named.items names.now.handles.items)
        (taken_from rooms.old.pendings.named.items names.now.pendings.items)) }
    ensures took { IfOk result (λ taken. TookTokens (is_some taken) names.now rooms.old rooms.new) }
    ensures room { IfOk result (λ taken. IfSome taken (λ tokens. HasRoomOf tokens.0 tokens.1 rooms.new)) }
{
    let Some(handles) = rooms.handles.take_all(alloc, names.handles.as_slice())? else {
        return Ok(None);
    };
    let handles = Handles::from_vec(handles);
    match rooms.pendings.take_all(alloc, names.pendings.as_slice()) {
        Ok(Some(pendings)) => Ok(Some((handles, PendingList::from_vec(pendings)))),
        Ok(None) => {
            rooms.give_handles(names, handles);
            Ok(None)
        }
        Err(NoMemory) => {
            rooms.give_handles(names, handles);
            Err(NoMemory)
        }
    }
}

/// A call from an end, where that is one, with what is held under names, at a moment; else nothing, which is
/// noted.
pub fn call(
    rooms: &mut Rooms,
    alloc: Global,
    names: &Names,
    number: u32,
    end: Option<EndId>,
    id: u32,
    prepared: &Prepared,
    moment: Option<i64>,
) -> Result<Command, NoMemory>
    ensures asked { IfOk result (λ command. asked_of command ≡ called number end id prepared.now moment names.now rooms.old) }
    ensures took { IfOk result (λ command. TookFor names.now command rooms.old rooms.new) }
    ensures prepared { IfOk result (λ command. (schema : Schema) → IsPrepared schema prepared.now → IsOf schema command) }
{
    let Some(end) = end else {
        return Ok(Command::Skip(number));
    };
    let Ok(prepared) = copy_prepared(alloc, prepared) else {
        return Err(NoMemory);
    };
    match take_tokens(rooms, alloc, names)? {
        Some((handles, pendings)) => Ok(Command::Call(
            end, id, prepared, handles, pendings, moment,
        )),
        None => Ok(Command::Skip(number)),
    }
}

/// The answer of the responder that is held under a name, where one is, with what is held under others, at
/// a moment; else nothing, which is noted.
pub fn answer(
    rooms: &mut Rooms,
    alloc: Global,
    names: &Names,
    number: u32,
    name: NameId,
    prepared: &Prepared,
    moment: Option<i64>,
) -> Result<Command, NoMemory>
    requires { names.now.one ≡ Some name }
    ensures asked { IfOk result (λ command. asked_of command
        ≡ answered number (held_at rooms.old.responders.named.items name) prepared.now moment names.now rooms.old) }
    ensures took { IfOk result (λ command. TookFor names.now command rooms.old rooms.new) }
    ensures prepared { IfOk result (λ command. (schema : Schema) → IsPrepared schema prepared.now → IsOf schema command) }
{
    if !rooms.responders.is_held(name) {
        return Ok(Command::Skip(number));
    }
    let Ok(prepared) = copy_prepared(alloc, prepared) else {
        return Err(NoMemory);
    };
    let Some((handles, pendings)) = take_tokens(rooms, alloc, names)? else {
        return Ok(Command::Skip(number));
    };
    match rooms.responders.take(name) {
        Some(responder) => Ok(Command::Answer(responder, prepared, handles, pendings, moment)),
        // One is held there.
        None => {
            rooms.give_handles(names, handles);
            rooms.give_pendings(names, pendings);
            unreachable!()
        }
    }
}

/// To write bytes from what is held under a name, with what is held under others; else nothing, which is
/// noted.
pub fn raw(
    rooms: &mut Rooms,
    alloc: Global,
    names: &Names,
    number: u32,
    name: NameId,
    bytes: &Items<u8>,
) -> Result<Command, NoMemory>
    requires { names.now.one ≡ Some name }
    ensures asked { IfOk result (λ command. asked_of command ≡ written number name bytes.now names.now rooms.old) }
    ensures took { IfOk result (λ command. TookFor names.now command rooms.old rooms.new) }
    ensures plain { IfOk result (λ command. (schema : Schema) → IsOf schema command) }
{
    let Ok(bytes) = bytes.copy(alloc) else {
        return Err(NoMemory);
    };
    let Some(handles) = rooms.handles.take_all(alloc, names.handles.as_slice())? else {
        return Ok(Command::Skip(number));
    };
    let handles = Handles::from_vec(handles);
    match rooms.handles.take(name) {
        Some(end) => Ok(Command::Raw(end, bytes, handles)),
        None => {
            rooms.give_handles(names, handles);
            Ok(Command::Skip(number))
        }
    }
}
