//! Commands of a sequence at its desk, and what comes back of them.

ghost use Rattle.std.specs.Prelude.{◌≡◌, ◌<◌, [], None, IfOk, OnOk, length};
ghost use Rattle.mj_base.specs.declared.limits.TheConstants.{MAX_EVENTS};
ghost use Rattle.wire_encoder.specs.Prepared.{IsPrepared};
ghost use Rattle.wire_model.specs.Trees.{view};
ghost use Rattle.bind_core.specs.Play.{told_at};
ghost use Rattle.bind_model.specs.Plain.{IsOf, HandsResponders, asked_of, responders_in, told_of};
ghost use Rattle.bind_model.specs.WireOf.{wire_of};
ghost use Rattle.bind_model.specs.declared.asked.Asked.TheVariants as asks;
ghost use Rattle.bind_model.specs.declared.commands.Command.TheVariants as commands;
ghost use Rattle.bind_model.specs.declared.endpoint.ResponderId.{ResponderId as responder_id};
ghost use Rattle.script_names.specs.Rooms.{HasPlaces, HasRoomBehind};
ghost use Rattle.script_names.specs.Settling.{EndsWith};
ghost use Rattle.script_run.specs.Draining.{HasRested};
ghost use Rattle.load_run.specs.Commands.{alone, end_of};
ghost use Rattle.load_run.specs.steps.Doing.{AskedOne, IsLast, IsUnspent, OneMore, ToldOne, handed};

use crate::desks::step;
use crate::ends::end_of;
use crate::seat::{BoxedCore, Seat};
use bind_model::{Command, PendingList, Refused, Reply, Responder, ResponderId};
use handle_table::Handles;
use mj_base::{EndId, SeqId};
use mj_schema::Schema;
use remote_receiver::Rest;
use script_names::{Names, NoMemory, Rooms};
use script_run::Plain;
use std::alloc::Global;
use wire_encoder::Prepared;

/// Keeps a command that came back for want of memory.
fn keep_refused(rooms: &mut Rooms, refused: Refused)
    requires places { HasPlaces 1 rooms.old }
    requires unspent { IsUnspent refused }
{
    match refused {
        Refused::Memory(command) => rooms.keep(command),
        // There is room for each event of a load.
        Refused::Spent(_command) => unreachable!(),
    }
}

/// Does a command of a sequence, with room for what comes back. One that comes back without an event is
/// kept: there was no memory for it.
pub fn ask(
    core: BoxedCore,
    rest: Rest<Plain>,
    rooms: &mut Rooms,
    alloc: Global,
    schema: &Schema,
    seq: SeqId,
    command: Command,
) -> (BoxedCore, Rest<Plain>, Result<Reply, NoMemory>)
    requires seq { seq.0 < core.seqs }
    requires schema { core.schema ≡ schema.now }
    requires prepared { IsOf core.schema command }
    requires rested { HasRested core seq rest }
    requires few { length core.events < MAX_EVENTS }
    requires places { HasPlaces 3 rooms.old }
    ensures one { IfOk result.2 (λ reply. OneMore seq (asked_of command) (told_of reply) core result.0) }
    ensures told { IfOk result.2 (λ reply. told_of reply ≡ told_at core seq command) }
    ensures rested { OnOk result.2 (HasRested result.0 seq result.1) }
    ensures responders { IfOk result.2 (HandsResponders (wire_of core.schema) command) }
    ensures places { OnOk result.2 (HasPlaces 2 rooms.new) }
    ensures room { IfOk result.2 (λ reply. HasRoomBehind reply rooms.new) }
{
    if rooms.make_room(&command).is_err() {
        rooms.keep(command);
        return (core, rest, Err(NoMemory));
    }
    let (seat, rest, told) = step(Seat { core, seq }, rest, alloc, schema, command);
    let Seat { core, seq: _ } = seat;
    match told {
        Ok(reply) => (core, rest, Ok(reply)),
        Err(refused) => {
            keep_refused(rooms, refused);
            (core, rest, Err(NoMemory))
        }
    }
}

/// The right to answer that comes with a reply, by its name.
fn responder_of(reply: &Reply) -> Option<ResponderId>
    ensures { handed result ≡ responders_in reply.now }
{
    match reply {
        Reply::Got(received) => match &received.responder {
            Some(responder) => Some(responder.id()),
            None => None,
        },
        Reply::Made(_)
        | Reply::Bound(_)
        | Reply::Associated(_)
        | Reply::Attached(_)
        | Reply::Sent(_, _)
        | Reply::Wrote(_)
        | Reply::Dropped(_, _)
        | Reply::Control(_)
        | Reply::Bad(_, _)
        | Reply::Closed(_)
        | Reply::Notified(_)
        | Reply::Pausing
        | Reply::Flowed(_, _)
        | Reply::Skipped
        | Reply::No(_, _) => None,
    }
}

/// Holds what comes with a reply: the right to answer, by its name, which is then the last one held.
fn settle(rooms: &mut Rooms, alloc: Global, reply: Reply) -> Result<Option<ResponderId>, NoMemory>
    requires places { HasPlaces 2 rooms.old }
    requires room { HasRoomBehind reply rooms.old }
    ensures found { IfOk result (λ found. handed found ≡ responders_in reply) }
    ensures last { IfOk result (IsLast rooms.new) }
{
    let names = Names::none(alloc);
    let found = responder_of(&reply);
    match rooms.settle(&names, reply, true) {
        Ok(()) => Ok(found),
        Err(_) => Err(NoMemory),
    }
}

/// Holds what comes with a reply that nothing more is wanted of.
pub fn keep_reply(rooms: &mut Rooms, alloc: Global, reply: Reply)
    requires places { HasPlaces 2 rooms.old }
    requires room { HasRoomBehind reply rooms.old }
{
    if settle(rooms, alloc, reply).is_err() {
        // It is held all the same.
    }
}

/// Does a command of a sequence, and holds what comes back: the right to answer, by its name.
pub fn tell(
    core: BoxedCore,
    rest: Rest<Plain>,
    rooms: &mut Rooms,
    alloc: Global,
    schema: &Schema,
    seq: SeqId,
    command: Command,
) -> (
    BoxedCore,
    Rest<Plain>,
    Result<Option<ResponderId>, NoMemory>,
)
    requires seq { seq.0 < core.seqs }
    requires schema { core.schema ≡ schema.now }
    requires prepared { IsOf core.schema command }
    requires rested { HasRested core seq rest }
    requires few { length core.events < MAX_EVENTS }
    requires places { HasPlaces 3 rooms.old }
    ensures told { IfOk result.2 (λ found. ToldOne seq (asked_of command) found core result.0) }
    ensures rested { OnOk result.2 (HasRested result.0 seq result.1) }
    ensures last { IfOk result.2 (IsLast rooms.new) }
{
    let (core, rest, told) = ask(core, rest, rooms, alloc, schema, seq, command);
    match told {
        Ok(reply) => (core, rest, settle(rooms, alloc, reply)),
        Err(NoMemory) => (core, rest, Err(NoMemory)),
    }
}

/// No handles.
fn no_handles(alloc: Global) -> Handles
    ensures { result ≡ [] }
{
    Handles::from_vec(Vec::new(alloc))
}

/// A call with a request that was prepared, and nothing else.
fn call_of(alloc: Global, end: EndId, prepared: Prepared) -> Command
    ensures { result ≡ commands.Call end 0 prepared [] [] None }
{
    Command::Call(
        end,
        0,
        prepared,
        no_handles(alloc),
        PendingList::new(alloc),
        None,
    )
}

/// The answer with a response that was prepared, and nothing else.
fn answer_of(alloc: Global, responder: Responder, prepared: Prepared) -> Command
    ensures { result ≡ commands.Answer responder prepared [] [] None }
{
    Command::Answer(
        responder,
        prepared,
        no_handles(alloc),
        PendingList::new(alloc),
        None,
    )
}

/// Calls from an end with a request that was prepared.
pub fn call(
    core: BoxedCore,
    rest: Rest<Plain>,
    rooms: &mut Rooms,
    alloc: Global,
    schema: &Schema,
    seq: SeqId,
    prepared: Prepared,
) -> (BoxedCore, Rest<Plain>, Result<(), NoMemory>)
    requires seq { seq.0 < core.seqs }
    requires schema { core.schema ≡ schema.now }
    requires prepared { IsPrepared core.schema prepared }
    requires rested { HasRested core seq rest }
    requires few { length core.events < MAX_EVENTS }
    ensures one { OnOk result.2 (AskedOne seq (asks.Call (end_of seq) 0 (alone prepared.target (view prepared.value))) core result.0) }
    ensures rested { OnOk result.2 (HasRested result.0 seq result.1) }
{
    if rooms.make_place().is_err() {
        return (core, rest, Err(NoMemory));
    }
    let command = call_of(alloc, end_of(seq), prepared);
    let (core, rest, told) = tell(core, rest, rooms, alloc, schema, seq, command);
    match told {
        Ok(_found) => (core, rest, Ok(())),
        Err(NoMemory) => (core, rest, Err(NoMemory)),
    }
}

/// Takes at a sequence's end: the right to answer, by its name, which is then the last one held.
pub fn take(
    core: BoxedCore,
    rest: Rest<Plain>,
    rooms: &mut Rooms,
    alloc: Global,
    schema: &Schema,
    seq: SeqId,
) -> (
    BoxedCore,
    Rest<Plain>,
    Result<Option<ResponderId>, NoMemory>,
)
    requires seq { seq.0 < core.seqs }
    requires schema { core.schema ≡ schema.now }
    requires rested { HasRested core seq rest }
    requires few { length core.events < MAX_EVENTS }
    ensures took { IfOk result.2 (λ found. ToldOne seq (asks.Take (end_of seq)) found core result.0) }
    ensures rested { OnOk result.2 (HasRested result.0 seq result.1) }
    ensures last { IfOk result.2 (IsLast rooms.new) }
{
    if rooms.make_place().is_err() {
        return (core, rest, Err(NoMemory));
    }
    let command = Command::Take(end_of(seq));
    tell(core, rest, rooms, alloc, schema, seq, command)
}

/// Answers with the last right to answer that is held, and a response that was prepared.
pub fn answer(
    core: BoxedCore,
    rest: Rest<Plain>,
    rooms: &mut Rooms,
    alloc: Global,
    schema: &Schema,
    seq: SeqId,
    prepared: Prepared,
) -> (BoxedCore, Rest<Plain>, Result<(), NoMemory>)
    requires seq { seq.0 < core.seqs }
    requires schema { core.schema ≡ schema.now }
    requires prepared { IsPrepared core.schema prepared }
    requires rested { HasRested core seq rest }
    requires few { length core.events < MAX_EVENTS }
    requires last { (r : responder_id) × EndsWith r rooms.old.responders.others.items }
    ensures one { OnOk result.2 ((r : responder_id) → EndsWith r rooms.old.responders.others.items
        → AskedOne seq (asks.Answer r (alone prepared.target (view prepared.value))) core result.0) }
    ensures rested { OnOk result.2 (HasRested result.0 seq result.1) }
{
    if rooms.make_place().is_err() {
        return (core, rest, Err(NoMemory));
    }
    let Some(responder) = rooms.responders.others.pop() else {
        unreachable!()
    };
    let command = answer_of(alloc, responder, prepared);
    let (core, rest, told) = tell(core, rest, rooms, alloc, schema, seq, command);
    match told {
        Ok(_found) => (core, rest, Ok(())),
        Err(NoMemory) => (core, rest, Err(NoMemory)),
    }
}
