//! Closing: a handle's thing, or an end, with all that goes with it.

ghost use Rattle.std.specs.Prelude.{◌≡◌, ◌==◌, [], ◌∷◌, false, IfOk, IfErr, IsSome, OnErr};
ghost use Rattle.handle_table.specs.declared.thing.Thing.TheVariants.{End};
ghost use Rattle.endpoint_router.specs.Rows.{row_at};
ghost use Rattle.bind_model.specs.declared.asked.Asked.TheVariants as asks;
ghost use Rattle.bind_model.specs.declared.asked.Closing.TheVariants as closings;
ghost use Rattle.bind_model.specs.declared.told.Told.TheVariants as tells;
ghost use Rattle.bind_model.specs.Machine.{goes_with as gone_with};
ghost use Rattle.core_state.specs.Routers.{found_at, router_at};
ghost use Rattle.core_state.specs.Agreement.{past_of, wire_in};
ghost use Rattle.core_state.specs.Doing.{CanDo, Done, HasRoom, Undone, told_to};
ghost use Rattle.core_ends.specs.steps.Unchanged.{Stays};

use bind_model::{Asked, Closing, Command, Endpoint, Event, Refused, Reply, ToClose, Told, Why};
use core_state::emit::emit_one;
use core_state::{State, Turn, goes_with, is_out, open_at, refuse};
use handle_table::{Handle, Place, Thing};
use mj_base::{EndId, Items, SeqId};
use std::alloc::{AllocError, Global};

/// Closes a thing by its handle, with all that goes with it. A handle that isn't out comes back.
pub fn close_handle(
    state: &mut State,
    alloc: Global,
    seq: SeqId,
    handle: Handle,
) -> Result<Reply, Refused>
    requires { CanDo state.old seq (Command.Close (ToClose.Handle handle)) }
    ensures done { IfOk result (λ reply. Done state.old state.new seq (Command.Close (ToClose.Handle handle)) reply) }
    ensures undone { IfErr result (λ refused. Undone state.old state.new (Command.Close (ToClose.Handle handle)) refused) }
{
    let thing = handle.thing();
    let asked = Asked::Close(Closing::Handle(thing));
    if !is_out(&state.pipes, thing) {
        let command = Command::Close(ToClose::Handle(handle));
        return refuse(state, seq, asked, Why::NoName, command);
    }
    let Ok(goes) = goes_with(&state.pipes, alloc, thing) else {
        return Err(Refused::Memory(Command::Close(ToClose::Handle(handle))));
    };
    state.pipes.put(handle, Place::Closed);
    state.pipes.close(goes.noted.as_slice());
    state.log.push_reserved(Event {
        seq,
        asked,
        told: Told::Closed(goes.noted),
    });
    Ok(Reply::Closed(goes.told))
}

/// Closes an endpoint; with id 0 its end, with all that goes with it.
pub fn close_endpoint(
    state: &mut State,
    alloc: Global,
    seq: SeqId,
    end: EndId,
    id: u32,
) -> Result<Reply, Refused>
    requires { CanDo state.old seq (Command.Close (ToClose.Endpoint end id)) }
    ensures done { IfOk result (λ reply. Done state.old state.new seq (Command.Close (ToClose.Endpoint end id)) reply) }
    ensures undone { IfErr result (λ refused. Undone state.old state.new (Command.Close (ToClose.Endpoint end id)) refused) }
{
    let asked = Asked::Close(Closing::Endpoint(end, id));
    match open_at(state, seq, end, id) {
        Err(why) => {
            let command = Command::Close(ToClose::Endpoint(end, id));
            refuse(state, seq, asked, why, command)
        }
        Ok(_endpoint) if id == 0 => match close_end(state, alloc, seq, end) {
            Ok(goes) => Ok(Reply::Closed(goes)),
            Err(_) => Err(Refused::Memory(Command::Close(ToClose::Endpoint(end, id)))),
        },
        Ok(_) => match close_one(state, alloc, seq, end, id) {
            Ok(goes) => Ok(Reply::Closed(goes)),
            Err(_) => Err(Refused::Memory(Command::Close(ToClose::Endpoint(end, id)))),
        },
    }
}

/// Closes an endpoint other than 0 that is open, and tells its peer. Nothing goes with it. Without memory
/// nothing changes.
fn close_one(
    state: &mut State,
    alloc: Global,
    seq: SeqId,
    end: EndId,
    id: u32,
) -> Result<Items<Thing>, AllocError>
    requires able { HasRoom state.old seq }
    requires here { IsSome (found_at state.old.endpoints end id) }
    requires other { (id == 0) ≡ false }
    requires told { told_to state.old seq (asks.Close (closings.Endpoint end id)) ≡ tells.Closed [] }
    ensures done { IfOk result (λ goes. Done state.old state.new seq (Command.Close (ToClose.Endpoint end id)) (Reply.Closed goes)) }
    ensures undone { OnErr result (Stays state.old state.new) }
{
    emit_one(&mut state.pipes, &state.endpoints, alloc, end, id)?;
    state.endpoints.turn(end, id, Turn::Closed);
    state.log.push_reserved(Event {
        seq,
        asked: Asked::Close(Closing::Endpoint(end, id)),
        told: Told::Closed(Items::new(alloc)),
    });
    Ok(Items::new(alloc))
}

/// Closes an open end with its endpoint 0, and all that goes with it. Without memory nothing changes.
fn close_end(
    state: &mut State,
    alloc: Global,
    seq: SeqId,
    end: EndId,
) -> Result<Items<Thing>, AllocError>
    requires able { HasRoom state.old seq }
    requires here { IsSome (row_at (router_at state.old.endpoints end) 0) }
    requires told { told_to state.old seq (asks.Close (closings.Endpoint end 0))
        ≡ tells.Closed (gone_with (wire_in state.old) (past_of state.old) (End end ∷ [])) }
    ensures done { IfOk result (λ goes. Done state.old state.new seq (Command.Close (ToClose.Endpoint end 0)) (Reply.Closed goes)) }
    ensures undone { OnErr result (Stays state.old state.new) }
{
    let goes = goes_with(&state.pipes, alloc, Thing::End(end))?;
    state.endpoints.turn(end, 0, Turn::Closed);
    state.pipes.close(goes.noted.as_slice());
    state.log.push_reserved(Event {
        seq,
        asked: Asked::Close(Closing::Endpoint(end, 0)),
        told: Told::Closed(goes.noted),
    });
    Ok(goes.told)
}
