//! What comes out of a message that is got: its parameters, its handles, the pendings of the endpoints that
//! it names, and the right to answer it.

ghost use Rattle.std.specs.Prelude.{◌≡◌, ◌+◌, ◌≤◌, ◌<◌, ◌^◌, ◌++◌, ◌∷◌, ◌&&◌, not, [], if◌then◌else◌, true, length, vec_len, vec_capacity};
ghost use Rattle.std.specs.Prelude.{IfOk, IfErr, IfSome, IsSome, OnOk};
ghost use Rattle.mj_base.specs.declared.ids.EndId.{EndId as end_id};
ghost use Rattle.mj_schema.specs.Lookups.{method_in};
ghost use Rattle.handle_table.specs.Places.{place_of, is_kept};
ghost use Rattle.handle_table.specs.declared.places.Place.TheVariants as places;
ghost use Rattle.message_pipe.specs.Contents.{Puts};
ghost use Rattle.endpoint_router.specs.Rows.{row_at};
ghost use Rattle.bind_model.specs.Pendings.{is_out};
ghost use Rattle.bind_model.specs.Replies.{is_response, pendings_at};
ghost use Rattle.bind_model.specs.WireOf.{has_response, wire_of};
ghost use Rattle.bind_model.specs.declared.asked.Asked.TheVariants as asks;
ghost use Rattle.bind_model.specs.declared.told.Told.TheVariants as tells;
ghost use Rattle.bind_model.specs.declared.endpoint.PendingId.{PendingId as pending_id};
ghost use Rattle.bind_model.specs.declared.endpoint.ResponderId.{ResponderId as responder_id};
ghost use Rattle.core_state.specs.Agreement.{past_of, wire_in};
ghost use Rattle.core_state.specs.Routers.{router_at};
ghost use Rattle.bind_model.specs.Responders.{count_of, has_count};
ghost use Rattle.core_state.specs.Doing.{Done, HasRoom, Undone, told_to};
ghost use Rattle.core_state.specs.Entries.{ArePlaced};
ghost use Rattle.core_taking.specs.Founds.{IsGot, is_pending, pending_ids};
ghost use Rattle.core_taking.specs.steps.Pending.{HavePlaces};
ghost use Rattle.core_state.specs.Placing.{PutsAll};
ghost use Rattle.core_state.specs.Requests.{AnswersAt};
ghost use Rattle.core_taking.specs.Taking.{IsBrought, LieThere, noted_as};
ghost use Rattle.core_state.specs.Dues.{responder_due, times_in};
ghost use Rattle.endpoint_router.specs.Turns.{IsSame};

use crate::pendings::{is_pending, make_pending, reserve_pending, room_for};
use crate::reading::{Arrived, is_response};
use crate::take::goes_behind;
use bind_model::{
    Asked, Boxed, Command, Event, Got, KeptParameters, Pending, PendingId, Received, Refused,
    Reply, Responder, ResponderId, Responders, Told,
};
use core_state::emit::emit;
use core_state::{Entering, Rights, Routers, State, Turn};
use handle_table::{Handle, Handles, Thing};
use message_pipe::Pipes;
use mj_base::{EndId, Items, SeqId};
use mj_schema::Schema;
use std::alloc::{AllocError, Global};
use wire_model::{MessageSide, Target};

/// All that a message brings: the reply as it is noted, the things whose handles come out, what goes, and
/// room for the handles and the pendings.
pub(crate) struct Brings {
    pub(crate) noted: Boxed<Got>,
    pub(crate) things: Items<Thing>,
    pub(crate) gone: Items<Thing>,
    pub(crate) room: Vec<Handle>,
    pub(crate) pendings: Vec<Pending>,
}

/// Notes the name of the pending of what enters, if it enters as pending.
fn note_name(end: EndId, entry: &Entering, names: &mut Vec<PendingId>) -> Result<(), AllocError>
    ensures { OnOk result (names.new.items ≡ names.old.items
        ++ (if is_pending entry.now.endpoint then record { end = end; id = entry.now.id } ∷ [] else [])) }
{
    if is_pending(entry.endpoint()) {
        names.push(PendingId {
            end,
            id: entry.id(),
        })?;
    }
    Ok(())
}

/// The names of the pendings of those that enter as pending, in order.
fn names_at(alloc: Global, end: EndId, entries: &[Entering]) -> Result<Items<PendingId>, AllocError>
    ensures { IfOk result (λ names. names ≡ pendings_at end (pending_ids entries.now)) }
{
    let mut names = Vec::new(alloc);
    for entry in entries {
        note_name(end, entry, &mut names)?;
    }
    Ok(Items::from_vec(names))
}

/// What arrived at an end as it is noted, with the things that go.
pub fn note_got(
    alloc: Global,
    end: EndId,
    arrived: &Arrived,
    gone: Items<Thing>,
) -> Result<Boxed<Got>, AllocError>
    ensures { IfOk result (λ noted. noted ≡ noted_as end arrived.now gone) }
{
    let parameters = KeptParameters::of(alloc, arrived.parameters.value())?;
    let handles = arrived.named.copy(alloc)?;
    let pendings = names_at(alloc, end, arrived.admitted.entries.as_slice())?;
    let noted = Got::apart(
        alloc,
        arrived.id,
        arrived.target,
        parameters,
        arrived.request,
        handles,
        pendings,
        gone,
        arrived.moment,
    )?;
    Ok(noted)
}

/// Makes all that a message at an end brings.
fn gather(pipes: &Pipes, alloc: Global, end: EndId, arrived: &Arrived) -> Result<Brings, AllocError>
    ensures { IfOk result (λ brings. IsBrought pipes.now end arrived.now brings) }
{
    let left = arrived.left.copy(alloc)?.into_vec();
    let goes = goes_behind(pipes, alloc, end, left)?;
    let noted = note_got(alloc, end, arrived, goes.noted)?;
    let things = arrived.named.copy(alloc)?;
    let room = Vec::with_capacity(alloc, things.len())?;
    match room_for(alloc, arrived.admitted.entries.as_slice()) {
        Ok(pendings) => Ok(Brings {
            noted,
            things,
            gone: goes.told,
            room,
            pendings,
        }),
        Err(error) => {
            room.destroy_empty();
            Err(error)
        }
    }
}

/// Lets all that a message would have brought go.
fn forget(brings: Brings)
    requires room { brings.room.items ≡ [] }
    requires pendings { brings.pendings.items ≡ [] }
{
    let Brings {
        noted: _,
        things: _,
        gone: _,
        room,
        pendings,
    } = brings;
    room.destroy_empty();
    pendings.destroy_empty();
}

/// Hands out the handle of one thing that is kept, into a list with room for it.
fn hand_one(pipes: &mut Pipes, thing: Thing, out: &mut Vec<Handle>)
    requires kept { is_kept (place_of pipes.old.table thing) ≡ true }
    requires room { vec_len out.old < vec_capacity out.old }
    ensures handles { out.new.items ≡ out.old.items ++ thing ∷ [] }
    ensures capacity { vec_capacity out.new ≡ vec_capacity out.old }
    ensures places { Puts thing places.Out pipes.old pipes.new }
{
    if let Some(handle) = pipes.take(thing) {
        out.push_reserved(handle);
    }
}

/// Hands out the handles of things that are kept, in their order.
fn hand_out(pipes: &mut Pipes, things: &[Thing], room: Vec<Handle>) -> Handles
    requires empty { room.items ≡ [] }
    requires room { length things.now ≤ vec_capacity room }
    requires there { LieThere pipes.old things.now }
    ensures handles { result ≡ things.now }
    ensures places { PutsAll things.now places.Out pipes.old pipes.new }
{
    let mut out = room;
    for thing in things {
        hand_one(pipes, *thing, &mut out);
    }
    Handles::from_vec(out)
}

/// Whether the method of a target has a response.
fn has_response(schema: &Schema, target: Target) -> bool
    ensures { result ≡ has_response (method_in schema.now.interfaces target.interface target.method) }
{
    match schema.method(target.interface, target.method) {
        Some(method) => method.response.is_some(),
        None => false,
    }
}

/// Whether a message for a target gives a responder: a request of a method with a response does.
#[tactic(auto, unfolding(bind_model::specs::WireOf::wire_of))]
pub fn gives_responder(schema: &Schema, target: Target) -> bool
    ensures { result ≡ (not (is_response target.side) && (wire_of schema.now).responds target.interface target.method) }
{
    !is_response(target.side) && has_response(schema, target)
}

/// The name of the responder that what arrived at an end gives.
pub fn responder_due(schema: &Schema, end: EndId, arrived: &Arrived) -> Option<ResponderId>
    ensures { result ≡ responder_due (wire_of schema.now) end arrived.now.id arrived.now.target arrived.now.request }
{
    let target = arrived.target;
    if !gives_responder(schema, target) {
        return None;
    }
    Some(ResponderId {
        end,
        id: arrived.id,
        request: arrived.request,
        interface: target.interface,
        method: target.method,
    })
}

/// Makes a place for the count of the responder that is due.
fn reserve_due(responders: &mut Responders, due: Option<ResponderId>) -> Result<(), AllocError>
    ensures same { (r : responder_id) → count_of responders.new r ≡ count_of responders.old r }
    ensures there { OnOk result (IfSome due (λ r. has_count responders.new r ≡ true)) }
{
    match due {
        Some(id) => responders.reserve(id),
        None => Ok(()),
    }
}

/// Makes the responder that is due, for whose count there is a place.
fn make_due(responders: &mut Responders, due: Option<ResponderId>) -> Option<Responder>
    requires there { IfSome due (λ r. has_count responders.old r ≡ true) }
    requires room { (r : responder_id) → count_of responders.old r + 1 < 2 ^ 64 }
    ensures made { result ≡ due }
    ensures counts { (r : responder_id) → count_of responders.new r ≡ count_of responders.old r + times_in due r }
{
    match due {
        Some(id) => Some(responders.make(id)),
        None => None,
    }
}

/// Ends the request whose response arrived at an end; what is no response ends none.
pub fn note_answered(endpoints: &mut Routers, end: EndId, arrived: &Arrived)
    ensures { AnswersAt end arrived.now.id arrived.now.request arrived.now.target.side endpoints.old endpoints.new }
{
    match arrived.target.side {
        MessageSide::Response => {
            endpoints.turn(end, arrived.id, Turn::Answered(arrived.request))
        }
        MessageSide::Request => {}
    }
}

/// The event of a take that got a request or a response.
pub fn event_of(seq: SeqId, end: EndId, noted: Boxed<Got>) -> Event
    ensures { result ≡ record { seq = seq; asked = asks.Take end; told = tells.Taken noted } }
{
    Event {
        seq,
        asked: Asked::Take(end),
        told: Told::Taken(noted),
    }
}

/// Makes places for all that is due: the rights, and the endpoints that enter.
fn make_places(
    rights: &mut Rights,
    endpoints: &mut Routers,
    end: EndId,
    entries: &[Entering],
    due: Option<ResponderId>,
) -> Result<(), AllocError>
    requires { IsSome (row_at (router_at endpoints.old end) 0) }
    ensures counts { (r : responder_id) → count_of rights.new.responders r ≡ count_of rights.old.responders r }
    ensures outs { (p : pending_id) → is_out rights.new.pendings p ≡ is_out rights.old.pendings p }
    ensures same { (x : end_id) → IsSame (router_at endpoints.old x) (router_at endpoints.new x) }
    ensures due { OnOk result (IfSome due (λ r. has_count rights.new.responders r ≡ true)) }
    ensures pendings { OnOk result (HavePlaces rights.new.pendings end entries.now) }
    ensures places { OnOk result (ArePlaced (router_at endpoints.new end) entries.now) }
{
    reserve_due(&mut rights.responders, due)?;
    reserve_pending(&mut rights.pendings, end, entries)?;
    endpoints.place_all(end, entries)
}

/// Gets a request or a response: its message goes with what its parameters don't name, its endpoints enter,
/// and the handles, the pendings and the responder that is due are handed out.
pub(crate) fn receive(
    state: &mut State,
    alloc: Global,
    seq: SeqId,
    end: EndId,
    arrived: Arrived,
) -> Result<Reply, Refused>
    requires able { HasRoom state.old seq }
    requires told { IsGot (wire_in state.old) (past_of state.old) end arrived (told_to state.old seq (asks.Take end)) }
    ensures done { IfOk result (λ reply. Done state.old state.new seq (Command.Take end) reply) }
    ensures undone { IfErr result (λ refused. Undone state.old state.new (Command.Take end) refused) }
{
    let due = responder_due(&state.schema, end, &arrived);
    let entries = arrived.admitted.entries.as_slice();
    let Ok(()) = make_places(&mut state.rights, &mut state.endpoints, end, entries, due) else {
        return Err(Refused::Memory(Command::Take(end)));
    };
    let Ok(brings) = gather(&state.pipes, alloc, end, &arrived) else {
        return Err(Refused::Memory(Command::Take(end)));
    };
    let closed = arrived.admitted.closed.as_slice();
    // The last step that can fail, and before anything is closed: the peer may go with the message.
    let Ok(()) = emit(&mut state.pipes, &state.endpoints, alloc, end, closed) else {
        forget(brings);
        return Err(Refused::Memory(Command::Take(end)));
    };
    let Brings {
        noted,
        things,
        gone,
        room,
        pendings,
    } = brings;
    let _front = state.pipes.pop_front(end);
    state.pipes.close(gone.as_slice());
    let handles = hand_out(&mut state.pipes, things.as_slice(), room);
    let responder = make_due(&mut state.rights.responders, due);
    let pendings = make_pending(&mut state.rights.pendings, end, entries, pendings);
    state.endpoints.enter_all(alloc, end, entries);
    note_answered(&mut state.endpoints, end, &arrived);
    state.log.push_reserved(event_of(seq, end, noted));
    Ok(Reply::Got(Received {
        id: arrived.id,
        target: arrived.target,
        parameters: arrived.parameters,
        request: arrived.request,
        handles,
        pendings,
        responder,
        gone,
        moment: arrived.moment,
    }))
}
