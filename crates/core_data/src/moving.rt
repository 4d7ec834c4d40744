//! Bytes that are moved at the tokens of data pipes.

ghost use Rattle.std.specs.Prelude.{◌≡◌, IfOk, IfErr, Ok};
ghost use Rattle.bind_model.specs.declared.told.Told.{Told};
ghost use Rattle.core_state.specs.Doing.{CanDo, Done, Undone, told_in};
ghost use Rattle.core_data.specs.steps.Moved.{command_of, with_bytes, SaysWhy};
ghost use Rattle.core_data.specs.Spots.{spot_in};

use crate::spot::{Spot, find_spot};
use bind_model::{Asked, Command, Event, Flow, Flowed, Refused, Reply, Told, Why};
use core_state::{State, refuse};
use data_pipe::DataRefused;
use handle_table::{Handle, Thing, TokenId};
use mj_base::{Items, SeqId};
use std::alloc::Global;

/// What is asked: the handle of a token, and what is moved there.
struct Moved {
    handle: Handle,
    flow: Flow,
}

impl Moved {
    /// The command that it came with.
    fn into_command(self) -> Command
        ensures { result ≡ command_of self }
    {
        let Moved { handle, flow } = self;
        Command::Flow(handle, flow)
    }
}

/// Moves bytes at the producer or the consumer of a data pipe, or begins or ends that.
pub fn flow(
    state: &mut State,
    alloc: Global,
    seq: SeqId,
    handle: Handle,
    flow: Flow,
) -> Result<Reply, Refused>
    requires { CanDo state.old seq (Command.Flow handle flow) }
    ensures done { IfOk result (λ reply. Done state.old state.new seq (Command.Flow handle flow) reply) }
    ensures undone { IfErr result (λ refused. Undone state.old state.new (Command.Flow handle flow) refused) }
{
    let moved = Moved { handle, flow };
    match find_spot(state, moved.handle.thing(), &moved.flow) {
        Ok(at) => move_at(state, alloc, seq, moved, at),
        Err(why) => refuse_moved(state, alloc, seq, moved, why),
    }
}

/// Notes that nothing is moved.
fn refuse_moved(
    state: &mut State,
    alloc: Global,
    seq: SeqId,
    moved: Moved,
    why: Why,
) -> Result<Reply, Refused>
    requires can { CanDo state.old seq (command_of moved) }
    requires why { told_in state.old seq (command_of moved) ≡ Told.No why }
    ensures done { IfOk result (λ reply. Done state.old state.new seq (command_of moved) reply) }
    ensures undone { IfErr result (λ refused. Undone state.old state.new (command_of moved) refused) }
{
    match moved.flow.copy(alloc) {
        Ok(copy) => {
            let asked = Asked::Flow(moved.handle.thing(), copy);
            refuse(state, seq, asked, why, moved.into_command())
        }
        Err(_) => Err(Refused::Memory(moved.into_command())),
    }
}

/// Notes what a data pipe refuses, or hands the command back for want of memory.
fn unmoved(
    state: &mut State,
    alloc: Global,
    seq: SeqId,
    moved: Moved,
    token: TokenId,
    cause: DataRefused,
) -> Result<Reply, Refused>
    requires can { CanDo state.old seq (command_of moved) }
    requires why { SaysWhy state.old seq moved token cause }
    ensures done { IfOk result (λ reply. Done state.old state.new seq (command_of moved) reply) }
    ensures undone { IfErr result (λ refused. Undone state.old state.new (command_of moved) refused) }
{
    match cause {
        DataRefused::No(why) => refuse_moved(state, alloc, seq, moved, why.at(token)),
        DataRefused::Memory => Err(Refused::Memory(moved.into_command())),
    }
}

/// The same that is told, with these bytes.
fn with_bytes(bytes: Items<u8>, flowed: &Flowed) -> Flowed
    ensures { result ≡ with_bytes bytes flowed.now }
{
    match flowed {
        Flowed::Put(count) => Flowed::Put(*count),
        Flowed::Bytes(_) => Flowed::Bytes(bytes),
        Flowed::Space(count) => Flowed::Space(*count),
        Flowed::View(_) => Flowed::View(bytes),
        Flowed::Ended => Flowed::Ended,
    }
}

/// Moves bytes at a token of the side that is asked. What the history keeps of them is made first.
fn move_at(
    state: &mut State,
    alloc: Global,
    seq: SeqId,
    moved: Moved,
    at: Spot,
) -> Result<Reply, Refused>
    requires can { CanDo state.old seq (command_of moved) }
    requires there { spot_in state.old moved.handle moved.flow ≡ Ok at }
    ensures done { IfOk result (λ reply. Done state.old state.new seq (command_of moved) reply) }
    ensures undone { IfErr result (λ refused. Undone state.old state.new (command_of moved) refused) }
{
    let Ok(bytes) = state
        .tables
        .flows
        .told_bytes(alloc, at.producer, &moved.flow)
    else {
        return Err(Refused::Memory(moved.into_command()));
    };
    match state
        .tables
        .flows
        .flow(alloc, at.producer, &moved.flow, at.gone)
    {
        Ok(flowed) => {
            let Moved { handle, flow } = moved;
            state.log.push_reserved(Event {
                seq,
                asked: Asked::Flow(Thing::Token(at.token), flow),
                told: Told::Flowed(at.token, with_bytes(bytes, &flowed)),
            });
            Ok(Reply::Flowed(handle, flowed))
        }
        Err(refused) => unmoved(state, alloc, seq, moved, at.token, refused),
    }
}
