//! New endpoints of an end.

ghost use Rattle.std.specs.Prelude.{◌≡◌, length, IfOk, IfErr, OnErr};
ghost use Rattle.bind_model.specs.declared.asked.Asked.TheVariants as asks;
ghost use Rattle.bind_model.specs.declared.told.Told.TheVariants as tells;
ghost use Rattle.bind_model.specs.Replies.{next_id};
ghost use Rattle.core_state.specs.Agreement.{past_of, schema_of, wire_in};
ghost use Rattle.core_ends.specs.steps.Associating.{why_not};
ghost use Rattle.core_state.specs.Doing.{CanDo, Done, HasRoom, Undone, told_to};
ghost use Rattle.core_ends.specs.steps.Unchanged.{Stays};

use bind_model::{
    Asked, Command, Endpoint, Event, Pending, PendingId, Refused, Reply, State as EndpointState,
    Told, Why,
};
use core_state::{State, other_side, refuse};
use mj_base::{EndId, SeqId};
use std::alloc::{AllocError, Global};
use wire_encoder::EndpointSide;

/// Makes an endpoint of an end, bound on the sequence that asks. The pending is its other half.
pub fn associate(
    state: &mut State,
    alloc: Global,
    seq: SeqId,
    end: EndId,
    side: EndpointSide,
    interface: u32,
) -> Result<Reply, Refused>
    requires { CanDo state.old seq (Command.Associate end side interface) }
    ensures done { IfOk result (λ reply. Done state.old state.new seq (Command.Associate end side interface) reply) }
    ensures undone { IfErr result (λ refused. Undone state.old state.new (Command.Associate end side interface) refused) }
{
    match why_not(state, end, interface) {
        Some(why) => {
            let asked = Asked::Associate(end, side, interface);
            let command = Command::Associate(end, side, interface);
            refuse(state, seq, asked, why, command)
        }
        None => match make(state, alloc, seq, end, side, interface) {
            Ok(pending) => Ok(Reply::Associated(pending)),
            Err(_) => Err(Refused::Memory(Command::Associate(end, side, interface))),
        },
    }
}

/// Why no endpoint of an interface is made at an end: it isn't bound, there is no such interface, or it is
/// closed.
fn why_not(state: &State, end: EndId, interface: u32) -> Option<Why>
    ensures { result ≡ why_not (length (schema_of state.now).interfaces) state.now.pipes state.now.endpoints end interface }
{
    let there = state.endpoints.find(end, 0).is_some()
        && (interface as usize) < state.schema.interfaces.len();
    if !there {
        return Some(Why::NoName);
    }
    if state.pipes.is_closed(end) {
        return Some(Why::Disconnected);
    }
    None
}

/// Makes an endpoint of an open end under the next of its own ids, and its other half. Without memory
/// nothing changes.
fn make(
    state: &mut State,
    alloc: Global,
    seq: SeqId,
    end: EndId,
    side: EndpointSide,
    interface: u32,
) -> Result<Pending, AllocError>
    requires able { HasRoom state.old seq }
    requires told { told_to state.old seq (asks.Associate end side interface)
        ≡ tells.Associated (record { end = end; id = next_id (wire_in state.old) (past_of state.old) end }) }
    ensures done { IfOk result (λ pending. Done state.old state.new seq (Command.Associate end side interface) (Reply.Associated pending)) }
    ensures undone { OnErr result (Stays state.old state.new) }
{
    let number = state.endpoints.next_id(end);
    let id = PendingId { end, id: number };
    state.endpoints.reserve(end, number)?;
    state.rights.pendings.reserve(id)?;
    let endpoint = Endpoint {
        side,
        interface,
        state: EndpointState::Bound(seq),
        peer_closed: false,
    };
    state.endpoints.associate(alloc, end, endpoint);
    let pending = state.rights.pendings.make(id, other_side(side), interface);
    state.log.push_reserved(Event {
        seq,
        asked: Asked::Associate(end, side, interface),
        told: Told::Associated(id),
    });
    Ok(pending)
}
