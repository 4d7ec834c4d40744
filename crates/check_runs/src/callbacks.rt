//! What became of the callbacks of a history, by the rule alone.

use bind_model::{Asked, Event, Told};
use history_text::{Fate, Note};
use mj_base::SeqId;
use std::alloc::{AllocError, Global};
use wire_model::MessageSide;

/// Whether an event got the response to the request of a callback.
fn gets_response(event: &Event, call: Note) -> bool {
    match (&event.told, &event.asked) {
        (Told::Taken(got), Asked::Take(end)) => {
            let got = got.get();
            *end == call.end
                && got.id == call.id
                && got.request == call.request
                && got.target.side == MessageSide::Response
        }
        _ => false,
    }
}

/// The callback of an event of a sequence that sent a request with a response to come, as if none came.
fn callback_of(event: &Event, seq: SeqId) -> Option<Note> {
    match (&event.told, &event.asked) {
        (Told::Sent(request, _), Asked::Call(end, id, _)) if *request != 0 && event.seq == seq => {
            Some(Note {
                seq,
                end: *end,
                id: *id,
                request: *request,
                fate: Fate::Dropped,
            })
        }
        _ => None,
    }
}

/// Adds the callback of each call of a sequence, in order.
fn add_callbacks(events: &[Event], seq: SeqId, notes: &mut Vec<Note>) -> Result<(), AllocError> {
    for (number, event) in events.iter().enumerate() {
        if let Some(note) = callback_of(event, seq) {
            let mut later = events.iter().skip(number);
            let fate = if later.any(|event| gets_response(event, note)) {
                Fate::Ran
            } else {
                Fate::Dropped
            };
            notes.push(Note { fate, ..note })?;
        }
    }
    Ok(())
}

/// The callbacks of the calls of so many sequences, by sequence and in order, and what became of each.
pub fn callbacks(alloc: Global, seqs: u32, events: &[Event]) -> Result<Vec<Note>, AllocError> {
    let mut notes = Vec::new(alloc);
    for seq in 0..seqs {
        add_callbacks(events, SeqId(seq), &mut notes)?;
    }
    Ok(notes)
}
