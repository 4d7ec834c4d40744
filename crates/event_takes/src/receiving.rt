//! What comes out of a message that is got: the things and the pendings that its parameters name, and the
//! right to answer it.

ghost use Rattle.std.specs.Prelude.{◌≡◌, ◌+◌, ◌<◌, ◌^◌, ◌||◌, ◌∷◌, [], true, IfOk, IfSome, IsSome, OnOk};
ghost use Rattle.mj_base.specs.declared.ids.EndId.{EndId as end_id};
ghost use Rattle.endpoint_router.specs.Rows.{row_at};
ghost use Rattle.bind_model.specs.Pendings.{has_place, is_out};
ghost use Rattle.bind_model.specs.Replies.{has_pending, pendings_at};
ghost use Rattle.bind_model.specs.Responders.{count_of, has_count};
ghost use Rattle.bind_model.specs.declared.asked.Asked.TheVariants as asks;
ghost use Rattle.bind_model.specs.declared.endpoint.PendingId.{PendingId as pending_id};
ghost use Rattle.bind_model.specs.declared.endpoint.ResponderId.{ResponderId as responder_id};
ghost use Rattle.core_state.specs.Doing.{HasRoom, told_to};
ghost use Rattle.core_state.specs.Entries.{ArePlaced};
ghost use Rattle.core_state.specs.Routers.{router_at};
ghost use Rattle.endpoint_router.specs.Turns.{IsSame};
ghost use Rattle.core_state.specs.Dues.{times_in};
ghost use Rattle.core_taking.specs.Founds.{IsGot, is_pending, pending_ids};
ghost use Rattle.core_taking.specs.steps.Pending.{HavePlaces, pending_at};
ghost use Rattle.core_taking.specs.Taking.{IsBringing};
ghost use Rattle.event_tables.specs.AsCore.{Steps, past_by, state_of, wire_by};

use crate::taking::goes_behind;
use bind_model::{Boxed, Got, PendingId, PendingNames, ResponderId, ResponderTable};
use core_state::{Entering, Routers};
use core_taking::pendings::is_pending;
use core_taking::reading::Arrived;
use core_taking::receive::{event_of, note_answered, note_got, responder_due};
use event_tables::{EventTables, emit_all, put_all};
use handle_table::{Place, Thing};
use message_pipe::ThingPipes;
use mj_base::{EndId, Items, SeqId};
use std::alloc::{AllocError, Global};

/// Makes a place for an endpoint that enters, among the pendings, where it is pending.
fn reserve_one(pendings: &mut PendingNames, end: EndId, entry: &Entering) -> Result<(), AllocError>
    ensures same { (p : pending_id) → is_out pendings.new p ≡ is_out pendings.old p }
    ensures there { OnOk result (is_pending entry.now.endpoint ≡ true → has_place pendings.new (pending_at end entry.now.id) ≡ true) }
    ensures keeps { (p : pending_id) → has_place pendings.old p ≡ true → has_place pendings.new p ≡ true }
{
    if is_pending(entry.endpoint()) {
        let id = entry.id();
        pendings.reserve(PendingId { end, id })?;
    }
    Ok(())
}

/// Makes a place for each endpoint that enters as pending, among the pendings.
fn reserve_pending(
    pendings: &mut PendingNames,
    end: EndId,
    entries: &[Entering],
) -> Result<(), AllocError>
    ensures same { (p : pending_id) → is_out pendings.new p ≡ is_out pendings.old p }
    ensures places { OnOk result (HavePlaces pendings.new end entries.now) }
{
    for entry in entries {
        reserve_one(pendings, end, entry)?;
    }
    Ok(())
}

/// Makes a place for the count of the right to answer that is due.
fn reserve_due(responders: &mut ResponderTable, due: Option<ResponderId>) -> Result<(), AllocError>
    ensures same { (r : responder_id) → count_of responders.new r ≡ count_of responders.old r }
    ensures there { OnOk result (IfSome due (λ r. has_count responders.new r ≡ true)) }
{
    match due {
        Some(id) => responders.reserve(id),
        None => Ok(()),
    }
}

/// Makes places for all that is due: the rights, and the endpoints that enter.
fn make_places(
    responders: &mut ResponderTable,
    pendings: &mut PendingNames,
    endpoints: &mut Routers,
    end: EndId,
    entries: &[Entering],
    due: Option<ResponderId>,
) -> Result<(), AllocError>
    requires { IsSome (row_at (router_at endpoints.old end) 0) }
    ensures counts { (r : responder_id) → count_of responders.new r ≡ count_of responders.old r }
    ensures outs { (p : pending_id) → is_out pendings.new p ≡ is_out pendings.old p }
    ensures same { (x : end_id) → IsSame (router_at endpoints.old x) (router_at endpoints.new x) }
    ensures due { OnOk result (IfSome due (λ r. has_count responders.new r ≡ true)) }
    ensures pendings { OnOk result (HavePlaces pendings.new end entries.now) }
    ensures places { OnOk result (ArePlaced (router_at endpoints.new end) entries.now) }
{
    reserve_due(responders, due)?;
    reserve_pending(pendings, end, entries)?;
    endpoints.place_all(end, entries)
}

/// Somebody has the right to answer that is due, for whose count there is a place.
fn add_due(responders: &mut ResponderTable, due: Option<ResponderId>)
    requires there { IfSome due (λ r. has_count responders.old r ≡ true) }
    requires room { (r : responder_id) → count_of responders.old r + 1 < 2 ^ 64 }
    ensures { (r : responder_id) → count_of responders.new r ≡ count_of responders.old r + times_in due r }
{
    if let Some(id) = due {
        responders.add(id);
    }
}

/// Somebody has the pending of an endpoint that enters, where it is pending.
fn add_one(pendings: &mut PendingNames, end: EndId, entry: &Entering)
    requires { is_pending entry.now.endpoint ≡ true → has_place pendings.old (pending_at end entry.now.id) ≡ true }
    ensures outs { (p : pending_id) → is_out pendings.new p ≡ (has_pending (pendings_at end (pending_ids (entry.now ∷ []))) p || is_out pendings.old p) }
    ensures keeps { (p : pending_id) → has_place pendings.old p ≡ true → has_place pendings.new p ≡ true }
{
    if is_pending(entry.endpoint()) {
        let id = entry.id();
        pendings.add(PendingId { end, id });
    }
}

/// Somebody has the pendings of all that enter as pending.
fn add_pending(pendings: &mut PendingNames, end: EndId, entries: &[Entering])
    requires { HavePlaces pendings.old end entries.now }
    ensures { (p : pending_id) → is_out pendings.new p ≡ (has_pending (pendings_at end (pending_ids entries.now)) p || is_out pendings.old p) }
{
    for entry in entries {
        add_one(pendings, end, entry);
    }
}

/// What a message that is got brings: the reply as it is noted, and the things that go.
#[derive(Drop)]
struct Gathered {
    noted: Boxed<Got>,
    gone: Items<Thing>,
}

/// Makes what a message at an end brings.
fn gather(
    pipes: &ThingPipes,
    alloc: Global,
    end: EndId,
    arrived: &Arrived,
) -> Result<Gathered, AllocError>
    ensures { IfOk result (λ found. IsBringing pipes.now end arrived.now
        (record { noted = found.noted; things = arrived.now.named; gone = found.gone })) }
{
    let copied = arrived.left.copy(alloc)?;
    let left = copied.into_vec();
    let gone = goes_behind(pipes, end, left)?;
    let told = gone.copy(alloc)?;
    let noted = note_got(alloc, end, arrived, told)?;
    Ok(Gathered { noted, gone })
}

/// Gets a request or a response: its message goes with what its parameters don't name, its endpoints enter,
/// and who takes it has what they name, and the right to answer that is due.
pub(crate) fn receive(
    tables: &mut EventTables,
    alloc: Global,
    seq: SeqId,
    end: EndId,
    arrived: Arrived,
) -> Result<(), AllocError>
    requires able { HasRoom (state_of tables.old) seq }
    requires told { IsGot (wire_by tables.old) (past_by tables.old) end arrived (told_to (state_of tables.old) seq (asks.Take end)) }
    ensures { OnOk result (Steps tables.old tables.new seq (asks.Take end)) }
{
    let due = responder_due(&tables.schema, end, &arrived);
    let entries = arrived.admitted.entries.as_slice();
    make_places(
        &mut tables.responders,
        &mut tables.pendings,
        &mut tables.endpoints,
        end,
        entries,
        due,
    )?;
    let found = gather(&tables.pipes, alloc, end, &arrived)?;
    let closed = arrived.admitted.closed.as_slice();
    // Before anything is closed: the peer may go with the message.
    emit_all(&mut tables.pipes, &tables.endpoints, alloc, end, closed)?;
    let _front = tables.pipes.pop_front(end);
    tables.pipes.close(found.gone.as_slice());
    put_all(&mut tables.pipes, arrived.named.as_slice(), Place::Out);
    add_due(&mut tables.responders, due);
    add_pending(&mut tables.pendings, end, entries);
    tables.endpoints.enter_all(alloc, end, entries);
    note_answered(&mut tables.endpoints, end, &arrived);
    tables.log.push_reserved(event_of(seq, end, found.noted));
    Ok(())
}
