//! Things, ends and rights to answer that are closed, with all that goes with them.

ghost use Rattle.std.specs.Prelude.{◌≡◌, ◌==◌, [], false, IsSome, OnOk};
ghost use Rattle.std.specs.Prelude.{◌∷◌};
ghost use Rattle.handle_table.specs.declared.thing.Thing.TheVariants.{End};
ghost use Rattle.endpoint_router.specs.Rows.{row_at};
ghost use Rattle.bind_model.specs.declared.asked.Asked.TheVariants as asks;
ghost use Rattle.bind_model.specs.declared.asked.Closing.TheVariants as closings;
ghost use Rattle.bind_model.specs.declared.told.Told.TheVariants as tells;
ghost use Rattle.bind_model.specs.Machine.{goes_with as gone_with};
ghost use Rattle.core_state.specs.Doing.{HasRoom, told_to};
ghost use Rattle.core_state.specs.Routers.{found_at, router_at};
ghost use Rattle.event_tables.specs.AsCore.{Steps, past_by, state_of, wire_by};

use crate::controls::emit_closed;
use crate::looks::{goes_with, is_out, open_at};
use crate::tables::{EventTables, refuse};
use bind_model::{Asked, Closing, Event, ResponderId, Told, Why};
use core_state::Turn;
use handle_table::{Place, Thing};
use mj_base::{EndId, Items, SeqId};
use std::alloc::{AllocError, Global};

/// Closes a thing with all that goes with it.
pub fn close_thing(
    tables: &mut EventTables,
    alloc: Global,
    seq: SeqId,
    thing: Thing,
) -> Result<(), AllocError>
    requires { HasRoom (state_of tables.old) seq }
    ensures { OnOk result (Steps tables.old tables.new seq (asks.Close (closings.Handle thing))) }
{
    let asked = Asked::Close(Closing::Handle(thing));
    if !is_out(&tables.pipes, thing) {
        refuse(tables, seq, asked, Why::NoName);
        return Ok(());
    }
    let goes = goes_with(&tables.pipes, alloc, thing)?;
    tables.pipes.put(thing, Place::Closed);
    tables.pipes.close(goes.as_slice());
    tables.log.push_reserved(Event {
        seq,
        asked,
        told: Told::Closed(goes),
    });
    Ok(())
}

/// Closes an endpoint; with id 0 its end, with all that goes with it.
pub fn close_endpoint(
    tables: &mut EventTables,
    alloc: Global,
    seq: SeqId,
    end: EndId,
    id: u32,
) -> Result<(), AllocError>
    requires { HasRoom (state_of tables.old) seq }
    ensures { OnOk result (Steps tables.old tables.new seq (asks.Close (closings.Endpoint end id))) }
{
    match open_at(tables, seq, end, id) {
        Err(why) => {
            refuse(tables, seq, Asked::Close(Closing::Endpoint(end, id)), why);
            Ok(())
        }
        Ok(_endpoint) if id == 0 => {
            close_end(tables, alloc, seq, end)?;
            Ok(())
        }
        Ok(_) => close_one(tables, alloc, seq, end, id),
    }
}

/// Closes an endpoint other than 0 that is open, and tells its peer. Nothing goes with it.
fn close_one(
    tables: &mut EventTables,
    alloc: Global,
    seq: SeqId,
    end: EndId,
    id: u32,
) -> Result<(), AllocError>
    requires able { HasRoom (state_of tables.old) seq }
    requires here { IsSome (found_at tables.old.endpoints end id) }
    requires other { (id == 0) ≡ false }
    requires told { told_to (state_of tables.old) seq (asks.Close (closings.Endpoint end id)) ≡ tells.Closed [] }
    ensures { OnOk result (Steps tables.old tables.new seq (asks.Close (closings.Endpoint end id))) }
{
    emit_closed(&mut tables.pipes, &tables.endpoints, alloc, end, id)?;
    tables.endpoints.turn(end, id, Turn::Closed);
    tables.log.push_reserved(Event {
        seq,
        asked: Asked::Close(Closing::Endpoint(end, id)),
        told: Told::Closed(Items::new(alloc)),
    });
    Ok(())
}

/// Closes an open end with its endpoint 0, and all that goes with it.
fn close_end(
    tables: &mut EventTables,
    alloc: Global,
    seq: SeqId,
    end: EndId,
) -> Result<(), AllocError>
    requires able { HasRoom (state_of tables.old) seq }
    requires here { IsSome (row_at (router_at tables.old.endpoints end) 0) }
    requires told { told_to (state_of tables.old) seq (asks.Close (closings.Endpoint end 0))
        ≡ tells.Closed (gone_with (wire_by tables.old) (past_by tables.old) (End end ∷ [])) }
    ensures { OnOk result (Steps tables.old tables.new seq (asks.Close (closings.Endpoint end 0))) }
{
    let goes = goes_with(&tables.pipes, alloc, Thing::End(end))?;
    tables.endpoints.turn(end, 0, Turn::Closed);
    tables.pipes.close(goes.as_slice());
    tables.log.push_reserved(Event {
        seq,
        asked: Asked::Close(Closing::Endpoint(end, 0)),
        told: Told::Closed(goes),
    });
    Ok(())
}

/// Lets the right to answer a request go: it gets no answer. Takes no memory.
pub fn close_responder(tables: &mut EventTables, alloc: Global, seq: SeqId, id: ResponderId)
    requires { HasRoom (state_of tables.old) seq }
    ensures { Steps tables.old tables.new seq (asks.Close (closings.Responder id)) }
{
    let asked = Asked::Close(Closing::Responder(id));
    if !tables.responders.is_out(id) {
        refuse(tables, seq, asked, Why::NoName);
        return;
    }
    tables.responders.remove(id);
    tables.log.push_reserved(Event {
        seq,
        asked,
        told: Told::Closed(Items::new(alloc)),
    });
}
