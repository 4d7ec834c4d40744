//! One message of a load: its call, the take of it, and the answer.

ghost use Rattle.std.specs.Prelude.{◌≡◌, ◌≤◌, ◌+◌, OnOk, length};
ghost use Rattle.mj_base.specs.declared.limits.TheConstants.{MAX_EVENTS};
ghost use Rattle.bind_model.specs.declared.endpoint.ResponderId.{ResponderId as responder_id};
ghost use Rattle.script_names.specs.Settling.{EndsWith};
ghost use Rattle.load_run.specs.Commands.{SEQUENCES};
ghost use Rattle.load_run.specs.Messages.{answer_tree, request_target, request_tree, targets_in};
ghost use Rattle.load_run.specs.steps.Doing.{AreThere, HasBoth, IsFor, IsLast, IsOutgoing, RepliedIf, RepliedTo, TookAll, Went};

use crate::messages::Message;
use crate::outgoing::{answer_out, request_out};
use crate::pairs::{Pair, call, receive, reply};
use crate::seat::BoxedCore;
use crate::targets::Targets;
use bind_model::ResponderId;
use mj_schema::Schema;
use script_names::{NoMemory, Rooms};
use std::alloc::Global;
use wire_encoder::Prepared;

/// The answer to a message with the last right to answer that is held, and the take of it; nothing where
/// none is prepared.
fn reply_with(
    core: BoxedCore,
    pair: Pair,
    rooms: &mut Rooms,
    alloc: Global,
    schema: &Schema,
    targets: Targets,
    message: Message,
    prepared: Option<Prepared>,
) -> (BoxedCore, Pair, Result<(), NoMemory>)
    requires seqs { core.seqs ≡ SEQUENCES }
    requires schema { core.schema ≡ schema.now }
    requires targets { targets ≡ targets_in schema.now }
    requires prepared { IsOutgoing schema.now targets.answer (answer_tree message.number) prepared }
    requires rested { HasBoth core message.is_second pair }
    requires few { length core.events + 2 ≤ MAX_EVENTS }
    requires last { (r : responder_id) × EndsWith r rooms.old.responders.others.items }
    ensures replied { OnOk result.2 ((r : responder_id) → EndsWith r rooms.old.responders.others.items
        → RepliedTo schema.now message r core result.0) }
    ensures rested { OnOk result.2 (HasBoth result.0 message.is_second result.1) }
{
    let is_second = message.is_second;
    match prepared {
        Some(prepared) => reply(core, pair, rooms, alloc, schema, is_second, prepared),
        None => (core, pair, Ok(())),
    }
}

/// What comes of the last right to answer that is held: the answer, and the take of it.
fn reply_to(
    core: BoxedCore,
    pair: Pair,
    rooms: &mut Rooms,
    alloc: Global,
    schema: &Schema,
    targets: Targets,
    message: Message,
) -> (BoxedCore, Pair, Result<(), NoMemory>)
    requires seqs { core.seqs ≡ SEQUENCES }
    requires schema { core.schema ≡ schema.now }
    requires targets { targets ≡ targets_in schema.now }
    requires there { AreThere schema.now targets }
    requires rested { HasBoth core message.is_second pair }
    requires few { length core.events + 2 ≤ MAX_EVENTS }
    requires last { (r : responder_id) × EndsWith r rooms.old.responders.others.items }
    ensures replied { OnOk result.2 ((r : responder_id) → EndsWith r rooms.old.responders.others.items
        → RepliedTo schema.now message r core result.0) }
    ensures rested { OnOk result.2 (HasBoth result.0 message.is_second result.1) }
{
    match answer_out(alloc, schema, targets, message) {
        Ok(prepared) => { reply_with(core, pair, rooms, alloc, schema, targets, message, prepared) }
        Err(NoMemory) => (core, pair, Err(NoMemory)),
    }
}

/// What comes of a take: where it handed out the right to answer, the answer.
fn reply_if(
    core: BoxedCore,
    pair: Pair,
    rooms: &mut Rooms,
    alloc: Global,
    schema: &Schema,
    targets: Targets,
    message: Message,
    found: Option<ResponderId>,
) -> (BoxedCore, Pair, Result<(), NoMemory>)
    requires seqs { core.seqs ≡ SEQUENCES }
    requires schema { core.schema ≡ schema.now }
    requires targets { targets ≡ targets_in schema.now }
    requires there { AreThere schema.now targets }
    requires rested { HasBoth core message.is_second pair }
    requires few { length core.events + 2 ≤ MAX_EVENTS }
    requires last { IsLast rooms.old found }
    ensures replied { OnOk result.2 (RepliedIf schema.now message found core result.0) }
    ensures rested { OnOk result.2 (HasBoth result.0 message.is_second result.1) }
{
    match found {
        Some(_responder) => reply_to(core, pair, rooms, alloc, schema, targets, message),
        None => (core, pair, Ok(())),
    }
}

/// The take of a message that was called, and what comes of it.
fn take_and_reply(
    core: BoxedCore,
    pair: Pair,
    rooms: &mut Rooms,
    alloc: Global,
    schema: &Schema,
    targets: Targets,
    message: Message,
) -> (BoxedCore, Pair, Result<(), NoMemory>)
    requires seqs { core.seqs ≡ SEQUENCES }
    requires schema { core.schema ≡ schema.now }
    requires targets { targets ≡ targets_in schema.now }
    requires there { AreThere schema.now targets }
    requires rested { HasBoth core message.is_second pair }
    requires few { length core.events + 3 ≤ MAX_EVENTS }
    ensures taken { OnOk result.2 (TookAll schema.now message core result.0) }
    ensures rested { OnOk result.2 (HasBoth result.0 message.is_second result.1) }
{
    let is_second = message.is_second;
    let (core, pair, found) = receive(core, pair, rooms, alloc, schema, is_second);
    match found {
        Ok(found) => reply_if(core, pair, rooms, alloc, schema, targets, message, found),
        Err(NoMemory) => (core, pair, Err(NoMemory)),
    }
}

/// The call with a request that was prepared, and what comes of it.
fn call_out(
    core: BoxedCore,
    pair: Pair,
    rooms: &mut Rooms,
    alloc: Global,
    schema: &Schema,
    targets: Targets,
    message: Message,
    prepared: Prepared,
) -> (BoxedCore, Pair, Result<(), NoMemory>)
    requires seqs { core.seqs ≡ SEQUENCES }
    requires schema { core.schema ≡ schema.now }
    requires targets { targets ≡ targets_in schema.now }
    requires there { AreThere schema.now targets }
    requires prepared { IsFor schema.now (request_target targets message) (request_tree message) prepared }
    requires rested { HasBoth core message.is_second pair }
    requires few { length core.events + 4 ≤ MAX_EVENTS }
    ensures went { OnOk result.2 (Went schema.now message core result.0) }
    ensures rested { OnOk result.2 (HasBoth result.0 message.is_second result.1) }
{
    let is_second = message.is_second;
    let (core, pair, done) = call(core, pair, rooms, alloc, schema, is_second, prepared);
    match done {
        Ok(()) => take_and_reply(core, pair, rooms, alloc, schema, targets, message),
        Err(NoMemory) => (core, pair, Err(NoMemory)),
    }
}

/// The call with what was prepared, and what comes of it; nothing where nothing was.
fn call_if(
    core: BoxedCore,
    pair: Pair,
    rooms: &mut Rooms,
    alloc: Global,
    schema: &Schema,
    targets: Targets,
    message: Message,
    prepared: Option<Prepared>,
) -> (BoxedCore, Pair, Result<(), NoMemory>)
    requires seqs { core.seqs ≡ SEQUENCES }
    requires schema { core.schema ≡ schema.now }
    requires targets { targets ≡ targets_in schema.now }
    requires there { AreThere schema.now targets }
    requires prepared { IsOutgoing schema.now (request_target targets message) (request_tree message) prepared }
    requires rested { HasBoth core message.is_second pair }
    requires few { length core.events + 4 ≤ MAX_EVENTS }
    ensures went { OnOk result.2 (Went schema.now message core result.0) }
    ensures rested { OnOk result.2 (HasBoth result.0 message.is_second result.1) }
{
    match prepared {
        Some(prepared) => { call_out(core, pair, rooms, alloc, schema, targets, message, prepared) }
        None => (core, pair, Ok(())),
    }
}

/// Sends a message over a pair, and does what comes of it; nothing where it doesn't go out.
pub fn send(
    core: BoxedCore,
    pair: Pair,
    rooms: &mut Rooms,
    alloc: Global,
    schema: &Schema,
    targets: Targets,
    message: Message,
) -> (BoxedCore, Pair, Result<(), NoMemory>)
    requires seqs { core.seqs ≡ SEQUENCES }
    requires schema { core.schema ≡ schema.now }
    requires targets { targets ≡ targets_in schema.now }
    requires there { AreThere schema.now targets }
    requires rested { HasBoth core message.is_second pair }
    requires few { length core.events + 4 ≤ MAX_EVENTS }
    ensures went { OnOk result.2 (Went schema.now message core result.0) }
    ensures rested { OnOk result.2 (HasBoth result.0 message.is_second result.1) }
{
    match request_out(alloc, schema, targets, message) {
        Ok(prepared) => { call_if(core, pair, rooms, alloc, schema, targets, message, prepared) }
        Err(NoMemory) => (core, pair, Err(NoMemory)),
    }
}
