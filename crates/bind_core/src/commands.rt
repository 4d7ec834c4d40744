//! One step of a core: each command is done by what does it.

ghost use Rattle.std.specs.Prelude.{◌<◌, IfOk, IfErr};
ghost use Rattle.bind_model.specs.Plain.{IsOf};
ghost use Rattle.core_state.specs.Agreement.{Holds, schema_of};
ghost use Rattle.core_state.specs.Doing.{CanDo, Done, Undone};

use bind_model::{Asked, Command, Event, Refused, Reply, ToClose, Told};
use core_data::flow;
use core_ends::associate::associate;
use core_ends::attach::attach;
use core_ends::data_pipes::data;
use core_ends::{bind, close_endpoint, close_handle, close_pending, join, mint};
use core_sending::answer::{answer, close_responder};
use core_sending::call;
use core_sending::notify::notify;
use core_sending::pause::pause;
use core_sending::raw::raw;
use core_state::State;
use core_taking::take;
use mj_base::SeqId;
use mj_base::limits::MAX_EVENTS;
use std::alloc::Global;

/// Does one command.
pub fn step(
    state: &mut State,
    alloc: Global,
    seq: SeqId,
    command: Command,
) -> Result<Reply, Refused>
    requires holds { Holds state.old }
    requires seq { seq.0 < state.old.seqs }
    requires prepared { IsOf (schema_of state.old) command }
    ensures done { IfOk result (λ reply. Done state.old state.new seq command reply) }
    ensures undone { IfErr result (λ refused. Undone state.old state.new command refused) }
{
    if state.log.len() >= MAX_EVENTS {
        return Err(Refused::Spent(command));
    }
    if state.log.reserve().is_err() {
        return Err(Refused::Memory(command));
    }
    dispatch(state, alloc, seq, command)
}

/// Does one command, for whose event there is room.
fn dispatch(
    state: &mut State,
    alloc: Global,
    seq: SeqId,
    command: Command,
) -> Result<Reply, Refused>
    requires { CanDo state.old seq command }
    ensures done { IfOk result (λ reply. Done state.old state.new seq command reply) }
    ensures undone { IfErr result (λ refused. Undone state.old state.new command refused) }
{
    match command {
        Command::Pipe => join::pipe(state, alloc, seq),
        Command::Join(other) => join::join(state, alloc, seq, other),
        Command::Mint(sort) => mint::mint(state, alloc, seq, sort),
        Command::Bind(handle, side, interface) => {
            bind::bind(state, alloc, seq, handle, side, interface)
        }
        Command::Associate(end, side, interface) => {
            associate(state, alloc, seq, end, side, interface)
        }
        Command::Attach(pending, on) => attach(state, seq, pending, on),
        Command::Call(end, id, prepared, handles, pendings, moment) => {
            call::call(
                state, alloc, seq, end, id, prepared, handles, pendings, moment,
            )
        }
        Command::Answer(responder, prepared, handles, pendings, moment) => {
            answer(
                state, alloc, seq, responder, prepared, handles, pendings, moment,
            )
        }
        Command::Raw(handle, bytes, handles) => raw(state, alloc, seq, handle, bytes, handles),
        Command::Take(end) => take::take(state, alloc, seq, end),
        Command::Close(ToClose::Handle(handle)) => close_handle(state, alloc, seq, handle),
        Command::Close(ToClose::Pending(pending)) => close_pending(state, alloc, seq, pending),
        Command::Close(ToClose::Responder(responder)) => {
            close_responder(state, alloc, seq, responder)
        }
        Command::Close(ToClose::Endpoint(end, id)) => close_endpoint(state, alloc, seq, end, id),
        Command::Notify(end, notice) => notify(state, alloc, seq, end, notice),
        Command::Pause(end, other, flush) => pause(state, alloc, seq, end, other, flush),
        Command::Data(size) => data(state, alloc, seq, size),
        Command::Flow(handle, moved) => flow(state, alloc, seq, handle, moved),
        Command::Skip(line) => Ok(skip(state, seq, line)),
    }
}

/// Notes a line of a script whose needs aren't there.
fn skip(state: &mut State, seq: SeqId, line: u32) -> Reply
    requires { CanDo state.old seq (Command.Skip line) }
    ensures { Done state.old state.new seq (Command.Skip line) result }
{
    state.log.push_reserved(Event {
        seq,
        asked: Asked::Skip(line),
        told: Told::Skipped,
    });
    Reply::Skipped
}
