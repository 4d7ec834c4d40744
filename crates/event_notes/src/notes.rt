//! What became of callbacks.

ghost use Rattle.std.specs.Prelude.{◌≡◌, ◌<◌, ◌==◌, ◌++◌, ◌∷◌, List, Some, length, reverse, slice_get, IfOk, OnOk};
ghost use Rattle.bind_model.specs.Names.{request_name};
ghost use Rattle.bind_model.specs.Seen.{own_of};
ghost use Rattle.bind_model.specs.declared.asked.Asked.TheVariants as asks;
ghost use Rattle.bind_model.specs.declared.event.Event.{Event as event_of};
ghost use Rattle.bind_model.specs.declared.told.Told.TheVariants as tells;
ghost use Rattle.callback_laws.specs.Callbacks.{callback_of, callbacks, callbacks_in, fate_of};
ghost use Rattle.history_text.specs.declared.notes.Note.{Note as any_note};
ghost use Rattle.event_notes.specs.steps.Got.{Knows, called, has_request, listed, noted, response_of};

use crate::answered::Answered;
use bind_model::{Asked, Boxed, Event, Got, RequestName, Told};
use history_text::{Fate, Note};
use mj_base::{EndId, Items, SeqId};
use std::alloc::{AllocError, Global};
use wire_model::MessageSide;

/// The request whose response was got at an end.
fn answered_by(end: EndId, got: &Got) -> Option<RequestName>
    ensures { result ≡ response_of (tells.Taken got.now) (asks.Take end) }
{
    match got.target.side {
        MessageSide::Response => Some(RequestName::new(end, got.id, got.request)),
        MessageSide::Request => None,
    }
}

/// The same, where what was got lies apart.
fn answered_in(end: EndId, got: &Boxed<Got>) -> Option<RequestName>
    ensures { result ≡ response_of (tells.Taken got.now) (asks.Take end) }
{
    answered_by(end, got.get())
}

/// The request whose response an event got.
fn response_of(event: &Event) -> Option<RequestName>
    ensures { result ≡ response_of event.now.told event.now.asked }
{
    match &event.told {
        Told::Taken(got) => match &event.asked {
            Asked::Take(end) => answered_in(*end, got),
            _ => None,
        },
        _ => None,
    }
}

/// What became of a callback whose response was got, or wasn't.
fn fate_of(ran: bool) -> Fate
    ensures { result ≡ fate_of ran }
{
    if ran { Fate::Ran } else { Fate::Dropped }
}

/// The callback of the request of this number that was sent from the endpoint of an id at an end, by the
/// requests whose responses were got behind it; none where no response is expected.
fn note_of_request(
    answered: &Answered,
    seq: SeqId,
    end: EndId,
    id: u32,
    request: u64,
) -> Option<Note>
    ensures { listed result ≡ noted seq end id request (has_request answered.now (request_name end id request)) }
{
    if request == 0 {
        return None;
    }
    Some(Note {
        seq,
        end,
        id,
        request,
        fate: fate_of(answered.has(RequestName::new(end, id, request))),
    })
}

/// The callback of an event's call, by the requests whose responses were got behind it.
fn note_of(answered: &Answered, event: &Event) -> Option<Note>
    ensures { listed result ≡ called answered.now event.now.seq event.now.told event.now.asked }
{
    match &event.told {
        Told::Sent(request, _) => match &event.asked {
            Asked::Call(end, id, _) => note_of_request(answered, event.seq, *end, *id, *request),
            _ => None,
        },
        _ => None,
    }
}

/// Adds what is there.
fn push_listed(notes: &mut Vec<Note>, note: Option<Note>) -> Result<(), AllocError>
    ensures { OnOk result (notes.new.items ≡ notes.old.items ++ listed note) }
{
    match note {
        Some(one) => {
            notes.push(one)?;
            Ok(())
        }
        None => Ok(()),
    }
}

/// Adds the request whose response an event got.
fn add_response(answered: &mut Answered, event: &Event) -> Result<(), AllocError>
    ensures { OnOk result ((later : List event_of) → Knows answered.old later → Knows answered.new (event.now ∷ later)) }
{
    match response_of(event) {
        Some(name) => answered.insert(name),
        None => Ok(()),
    }
}

/// Adds the callback of an event's call, and the request whose response the event got.
fn note_event(
    notes: &mut Vec<Note>,
    answered: &mut Answered,
    event: &Event,
) -> Result<(), AllocError>
    ensures notes { OnOk result ((later : List event_of) → Knows answered.old later
        → notes.new.items ≡ notes.old.items ++ callback_of event.now.seq event.now.told event.now.asked later) }
    ensures knows { OnOk result ((later : List event_of) → Knows answered.old later → Knows answered.new (event.now ∷ later)) }
{
    push_listed(notes, note_of(answered, event))?;
    add_response(answered, event)
}

/// Whether an event is of a sequence.
fn is_own(event: &Event, seq: SeqId) -> bool
    ensures { result ≡ (event.now.seq.0 == seq.0) }
{
    event.seq.0 == seq.0
}

/// As `note_event`, where the event is of a sequence; else nothing.
fn note_own(
    notes: &mut Vec<Note>,
    answered: &mut Answered,
    seq: SeqId,
    event: &Event,
) -> Result<(), AllocError>
    ensures back { OnOk result ((before : List any_note) (later : List event_of) → Knows answered.old (own_of seq later)
        → notes.old.items ≡ before ++ reverse (callbacks_in (own_of seq later))
        → notes.new.items ≡ before ++ reverse (callbacks_in (own_of seq (event.now ∷ later)))) }
    ensures knows { OnOk result ((later : List event_of) → Knows answered.old (own_of seq later) → Knows answered.new (own_of seq (event.now ∷ later))) }
{
    if is_own(event, seq) {
        return note_event(notes, answered, event);
    }
    Ok(())
}

/// The event of a number.
fn event_at(events: &[Event], at: usize) -> &Event
    requires { at < length events.now }
    ensures { slice_get events.now at ≡ Some result.now }
{
    &events[at]
}

/// Adds the callbacks of a sequence's calls among these events, that of the last call first.
fn push_back(
    notes: &mut Vec<Note>,
    alloc: Global,
    seq: SeqId,
    events: &[Event],
) -> Result<(), AllocError>
    ensures { OnOk result (notes.new.items ≡ notes.old.items ++ reverse (callbacks_in (own_of seq events.now))) }
{
    let mut answered = Answered::new(alloc);
    let mut at = events.len();
    while at > 0 {
        at -= 1;
        note_own(notes, &mut answered, seq, event_at(events, at))?;
    }
    Ok(())
}

/// Adds these, the last first.
fn push_turned(notes: &mut Vec<Note>, own: Vec<Note>) -> Result<(), AllocError>
    ensures { OnOk result (notes.new.items ≡ notes.old.items ++ reverse own.items) }
{
    let mut left = own;
    while let Some(note) = left.pop() {
        notes.push(note)?;
    }
    Ok(())
}

/// Adds the callbacks of a sequence's calls among these events, in order.
fn push_own(
    notes: &mut Vec<Note>,
    alloc: Global,
    seq: SeqId,
    events: &[Event],
) -> Result<(), AllocError>
    ensures { OnOk result (notes.new.items ≡ notes.old.items ++ callbacks_in (own_of seq events.now)) }
{
    let mut own = Vec::new(alloc);
    push_back(&mut own, alloc, seq, events)?;
    push_turned(notes, own)
}

/// What became of the callbacks of the calls of these sequences in a history: by sequence and by call. Each
/// ran whose response was got behind its call. Takes time in proportion to the events, for each sequence, and
/// to the logarithm of the responses.
pub fn callbacks(alloc: Global, seqs: u32, events: &[Event]) -> Result<Items<Note>, AllocError>
    ensures { IfOk result (λ notes. notes ≡ callbacks seqs events.now) }
{
    let mut notes = Vec::new(alloc);
    for seq in 0..seqs {
        push_own(&mut notes, alloc, SeqId(seq), events)?;
    }
    Ok(Items::from_vec(notes))
}
