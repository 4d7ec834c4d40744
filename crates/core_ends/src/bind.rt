//! Binding an end as a side of an interface.

ghost use Rattle.std.specs.Prelude.{◌≡◌, ◌<◌, ◌&&◌, true, nat_lt, length, IfOk, IfErr};
ghost use Rattle.handle_table.specs.Places.{place_of};
ghost use Rattle.handle_table.specs.Things.{has};
ghost use Rattle.handle_table.specs.declared.thing.Thing.TheVariants.{End};
ghost use Rattle.bind_model.specs.Machine.{out};
ghost use Rattle.core_state.specs.Agreement.{is_out, past_of, schema_of};
ghost use Rattle.core_state.specs.Doing.{CanDo, Done, HasRoom, Undone};

use bind_model::{
    Asked, Command, Endpoint, Event, Refused, Reply, State as EndpointState, Told, Why,
};
use core_state::{State, is_out, refuse};
use handle_table::{Handle, Place, Thing};
use mj_base::{EndId, SeqId};
use std::alloc::Global;
use wire_encoder::EndpointSide;

/// Whether the handle is with a caller, and the interface is there.
fn may_bind(state: &State, thing: Thing, interface: u32) -> bool
    ensures { result ≡ (is_out (place_of state.now.pipes.table thing) && nat_lt interface (length (schema_of state.now).interfaces)) }
{
    is_out(&state.pipes, thing) && (interface as usize) < state.schema.interfaces.len()
}

/// Binds the handle's end on the sequence that asks. The table keeps the handle.
pub fn bind(
    state: &mut State,
    alloc: Global,
    seq: SeqId,
    handle: Handle,
    side: EndpointSide,
    interface: u32,
) -> Result<Reply, Refused>
    requires { CanDo state.old seq (Command.Bind handle side interface) }
    ensures done { IfOk result (λ reply. Done state.old state.new seq (Command.Bind handle side interface) reply) }
    ensures undone { IfErr result (λ refused. Undone state.old state.new (Command.Bind handle side interface) refused) }
{
    let thing = handle.thing();
    let asked = Asked::Bind(thing, side, interface);
    if !may_bind(state, thing, interface) {
        return refuse(
            state,
            seq,
            asked,
            Why::NoName,
            Command::Bind(handle, side, interface),
        );
    }
    match thing {
        Thing::End(end) => bind_end(state, alloc, seq, handle, side, interface, end),
        Thing::Token(_) => refuse(
            state,
            seq,
            asked,
            Why::NotPipe,
            Command::Bind(handle, side, interface),
        ),
    }
}

/// Binds an end whose handle is with a caller.
fn bind_end(
    state: &mut State,
    alloc: Global,
    seq: SeqId,
    handle: Handle,
    side: EndpointSide,
    interface: u32,
    end: EndId,
) -> Result<Reply, Refused>
    requires able { HasRoom state.old seq }
    requires end { handle ≡ End end }
    requires held { has (out (past_of state.old)) (End end) ≡ true }
    requires there { interface < length (schema_of state.old).interfaces }
    ensures done { IfOk result (λ reply. Done state.old state.new seq (Command.Bind handle side interface) reply) }
    ensures undone { IfErr result (λ refused. Undone state.old state.new (Command.Bind handle side interface) refused) }
{
    let endpoint = Endpoint {
        side,
        interface,
        state: EndpointState::Bound(seq),
        peer_closed: false,
    };
    if state.endpoints.enter(alloc, end, 0, endpoint).is_err() {
        return Err(Refused::Memory(Command::Bind(handle, side, interface)));
    }
    state.pipes.put(handle, Place::Bound);
    state.log.push_reserved(Event {
        seq,
        asked: Asked::Bind(Thing::End(end), side, interface),
        told: Told::Bound(end),
    });
    Ok(Reply::Bound(end))
}
