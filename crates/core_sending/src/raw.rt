//! Raw bytes: a message that nothing is known of, from an end that isn't bound.

ghost use Rattle.std.specs.Prelude.{◌≡◌, false, Ok, IfOk, IfErr};
ghost use Rattle.bind_model.specs.Plain.{end_written};
ghost use Rattle.bind_model.specs.declared.asked.Asked.TheVariants as asks;
ghost use Rattle.core_state.specs.Doing.{CanDo, Done, Undone};
ghost use Rattle.core_sending.specs.steps.Raw.{all_out_with, command_of, raw_way, raw_way_from};

use crate::writing::{put_message, way_to};
use bind_model::limits::{MAX_RAW_BYTES, MAX_RAW_HANDLES};
use bind_model::{Asked, Command, Event, Refused, Reply, Told, Why};
use core_state::{State, all_out, contains, is_out, put_all, refuse};
use handle_table::{Handle, Handles, Place, Thing};
use message_pipe::{Message, Pipes};
use mj_base::{EndId, Items, SeqId};
use std::alloc::{AllocError, Global};

/// What is written: the end that it is written from, bytes, and the handles that go with them.
pub struct RawBytes {
    pub handle: Handle,
    pub bytes: Items<u8>,
    pub handles: Handles,
}

impl RawBytes {
    ghost use Rattle.core_sending.specs.steps.Raw.{command_of};

    /// The command that it came with.
    fn into_command(self) -> Command
        ensures { result ≡ command_of self }
    {
        let RawBytes {
            handle,
            bytes,
            handles,
        } = self;
        Command::Raw(handle, bytes, handles)
    }
}

/// Writes bytes from an end that isn't bound, as they are.
pub fn raw(
    state: &mut State,
    alloc: Global,
    seq: SeqId,
    handle: Handle,
    bytes: Items<u8>,
    handles: Handles,
) -> Result<Reply, Refused>
    requires { CanDo state.old seq (Command.Raw handle bytes handles) }
    ensures done { IfOk result (λ reply. Done state.old state.new seq (Command.Raw handle bytes handles) reply) }
    ensures undone { IfErr result (λ refused. Undone state.old state.new (Command.Raw handle bytes handles) refused) }
{
    let raw = RawBytes {
        handle,
        bytes,
        handles,
    };
    let Ok(things) = raw.handles.things(alloc) else {
        return Err(Refused::Memory(raw.into_command()));
    };
    write_from(state, alloc, seq, raw, Items::from_vec(things))
}

/// Writes raw bytes, or notes why they aren't written.
fn write_from(
    state: &mut State,
    alloc: Global,
    seq: SeqId,
    raw: RawBytes,
    things: Items<Thing>,
) -> Result<Reply, Refused>
    requires can { CanDo state.old seq (command_of raw) }
    requires same { things ≡ raw.handles }
    ensures done { IfOk result (λ reply. Done state.old state.new seq (command_of raw) reply) }
    ensures undone { IfErr result (λ refused. Undone state.old state.new (command_of raw) refused) }
{
    let Ok(own) = all_out_with(alloc, &state.pipes, raw.handle.thing(), things.as_slice()) else {
        return Err(Refused::Memory(raw.into_command()));
    };
    match way(state, &raw, things.as_slice(), own) {
        Ok(peer) => write(state, alloc, seq, raw, things, peer),
        Err(why) => match raw.bytes.copy(alloc) {
            Ok(bytes) => {
                let asked = Asked::Raw(raw.handle.thing(), bytes, things);
                refuse(state, seq, asked, why, raw.into_command())
            }
            Err(_) => Err(Refused::Memory(raw.into_command())),
        },
    }
}

/// Whether the handles of a thing and of all others are with callers, and none stands twice.
fn all_out_with(
    alloc: Global,
    pipes: &Pipes,
    thing: Thing,
    things: &[Thing],
) -> Result<bool, AllocError>
    ensures { IfOk result (λ own. own ≡ all_out_with pipes.now thing things.now) }
{
    if !is_out(pipes, thing) || contains(things, thing) {
        return Ok(false);
    }
    all_out(alloc, pipes, things)
}

/// The end that raw bytes go to from a thing, or why they aren't written.
fn way_from(state: &State, thing: Thing, bytes: usize, things: &[Thing]) -> Result<EndId, Why>
    ensures { result ≡ raw_way_from thing bytes things.now state.now.pipes state.now.tables.flows }
{
    let end = match thing {
        Thing::End(end) => end,
        Thing::Token(_) => return Err(Why::NotPipe),
    };
    if bytes as u64 > MAX_RAW_BYTES {
        return Err(Why::TooLong);
    }
    if things.len() > MAX_RAW_HANDLES {
        return Err(Why::TooManyHandles);
    }
    way_to(&state.pipes, &state.tables.flows, end, false, things)
}

/// The end that raw bytes go to, or why they aren't written. It is told whether the caller has all handles.
fn way(state: &State, raw: &RawBytes, things: &[Thing], own: bool) -> Result<EndId, Why>
    ensures { result ≡ raw_way raw.now.handle raw.now.bytes things.now own state.now.pipes state.now.tables.flows }
{
    if !own {
        return Err(Why::NoName);
    }
    way_from(state, raw.handle.thing(), raw.bytes.len(), things)
}

/// The end that a thing is; no token is written from.
pub fn end_written(thing: Thing) -> EndId
    ensures { result ≡ end_written thing }
{
    match thing {
        Thing::End(end) => end,
        Thing::Token(token) => EndId {
            seq: token.seq,
            serial: token.serial,
        },
    }
}

/// A message of raw bytes, with these handles.
pub fn message_of(
    alloc: Global,
    bytes: &Items<u8>,
    things: &Items<Thing>,
) -> Result<Message, AllocError>
    ensures { IfOk result (λ message. message ≡ record { bytes = bytes.now; handles = things.now; emitted = false }) }
{
    let handles = things.copy(alloc)?;
    Ok(Message {
        bytes: bytes.copy(alloc)?,
        handles,
        emitted: false,
    })
}

/// Writes raw bytes that nothing refuses.
fn write(
    state: &mut State,
    alloc: Global,
    seq: SeqId,
    raw: RawBytes,
    things: Items<Thing>,
    peer: EndId,
) -> Result<Reply, Refused>
    requires can { CanDo state.old seq (command_of raw) }
    requires same { things ≡ raw.handles }
    requires free { raw_way raw.handle raw.bytes raw.handles (all_out_with state.old.pipes raw.handle raw.handles) state.old.pipes
        state.old.tables.flows ≡ Ok peer }
    ensures done { IfOk result (λ reply. Done state.old state.new seq (command_of raw) reply) }
    ensures undone { IfErr result (λ refused. Undone state.old state.new (command_of raw) refused) }
{
    let Ok(message) = message_of(alloc, &raw.bytes, &things) else {
        return Err(Refused::Memory(raw.into_command()));
    };
    let Ok(()) = put_message(&mut state.pipes, peer, message) else {
        return Err(Refused::Memory(raw.into_command()));
    };
    let RawBytes {
        handle,
        bytes,
        handles,
    } = raw;
    put_all(&mut state.pipes, handles, Place::Unread(peer));
    let thing = handle.thing();
    state.log.push_reserved(Event {
        seq,
        asked: Asked::Raw(thing, bytes, things),
        told: Told::Wrote(end_written(thing)),
    });
    Ok(Reply::Wrote(handle))
}
