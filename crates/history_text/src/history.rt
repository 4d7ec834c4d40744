//! The text of a history.

ghost use Rattle.std.specs.Prelude.{◌≡◌, ◌++◌, IfOk, OnOk};
ghost use Rattle.std.specs.List.{flat_map};
ghost use Rattle.history_text.specs.History.{event_line, event_lines, note_line, left_line, history_text};

use crate::asked_text::push_asked;
use crate::message_text::push_text;
use crate::notes::Note;
use crate::parts::{push_pair, push_shown, push_triple};
use crate::shown::{ShownEndpoint, ShownThing};
use crate::told_text::push_told;
use crate::words::fate_word;
use bind_model::{Event, History};
use handle_table::Thing;
use mj_schema::Schema;
use std::alloc::{AllocError, Global};

/// Adds the line of an event of this number. The error is want of memory.
pub fn push_event(
    alloc: Global,
    out: &mut Vec<u8>,
    schema: &Schema,
    number: usize,
    event: &Event,
) -> Result<(), AllocError>
    ensures { OnOk result (out.new.items ≡ out.old.items ++ event_line schema.now number event.now) }
{
    push_pair(alloc, out, "", number, event.seq.0)?;
    push_text(out, " ")?;
    push_asked(alloc, out, schema, &event.asked)?;
    push_text(out, " -> ")?;
    push_told(alloc, out, schema, &event.told)?;
    push_text(out, "\n")
}

/// The lines of the events, numbered from 0.
fn event_lines(alloc: Global, schema: &Schema, events: &[Event]) -> Result<Vec<u8>, AllocError>
    ensures { IfOk result (λ text. text.items ≡ event_lines schema.now 0 events.now) }
{
    let mut text = Vec::new(alloc);
    for (number, event) in events.iter().enumerate() {
        push_event(alloc, &mut text, schema, number, event)?;
    }
    Ok(text)
}

/// Adds the line of a callback.
fn push_note(alloc: Global, out: &mut Vec<u8>, note: Note) -> Result<(), AllocError>
    ensures { OnOk result (out.new.items ≡ out.old.items ++ note_line note) }
{
    let endpoint = ShownEndpoint(note.end, note.id);
    push_triple(alloc, out, "callback ", note.seq.0, endpoint, note.request)?;
    push_shown(alloc, out, " ", fate_word(note.fate))?;
    push_text(out, "\n")
}

/// Adds the lines of callbacks.
fn push_notes(alloc: Global, out: &mut Vec<u8>, notes: &[Note]) -> Result<(), AllocError>
    ensures { OnOk result (out.new.items ≡ out.old.items ++ flat_map note_line notes.now) }
{
    for note in notes {
        push_note(alloc, out, *note)?;
    }
    Ok(())
}

/// Adds the line of a thing that is left.
fn push_left_line(alloc: Global, out: &mut Vec<u8>, thing: Thing) -> Result<(), AllocError>
    ensures { OnOk result (out.new.items ≡ out.old.items ++ left_line thing) }
{
    push_shown(alloc, out, "left ", ShownThing(thing))?;
    push_text(out, "\n")
}

/// Adds the lines of what is left.
fn push_left(alloc: Global, out: &mut Vec<u8>, left: &[Thing]) -> Result<(), AllocError>
    ensures { OnOk result (out.new.items ≡ out.old.items ++ flat_map left_line left.now) }
{
    for thing in left {
        push_left_line(alloc, out, *thing)?;
    }
    Ok(())
}

/// The text of a history: a line for each event, the oldest first; then a line for each callback and
/// then one for each thing that is left, both in the order given; and last how many events there were.
/// An interface or a method that the schema lacks has an empty name, and its parameters are written as
/// the schema's first struct. Takes time in proportion to the text and, for each message, to the methods
/// of its interface. The error is want of memory.
pub fn render(
    alloc: Global,
    schema: &Schema,
    history: &History,
    notes: &[Note],
    left: &[Thing],
) -> Result<Vec<u8>, AllocError>
    ensures { IfOk result (λ text. text.items ≡ history_text schema.now history.now.events notes.now left.now) }
{
    let mut text = event_lines(alloc, schema, history.as_slice())?;
    push_notes(alloc, &mut text, notes)?;
    push_left(alloc, &mut text, left)?;
    push_shown(alloc, &mut text, "done ", history.len())?;
    push_text(&mut text, "\n")?;
    Ok(text)
}
