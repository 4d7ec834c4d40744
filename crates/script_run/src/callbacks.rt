//! What became of callbacks, as histories show it.

ghost use Rattle.std.specs.Prelude.{◌≡◌, ◌++◌, map, OnOk};
ghost use Rattle.callback_laws.specs.Callbacks.{fate_of};
ghost use Rattle.callback_laws.specs.Shown.{shown};

use history_text::{Fate, Note as TextNote};
use mj_base::SeqId;
use remote_receiver::Note;
use std::alloc::AllocError;

/// What became of a callback that ran, or didn't.
fn fate_of(ran: bool) -> Fate
    ensures { result ≡ fate_of ran }
{
    if ran { Fate::Ran } else { Fate::Dropped }
}

/// A note of the desk of a sequence.
fn shown(seq: SeqId, note: Note) -> TextNote
    ensures { result ≡ shown seq note }
{
    TextNote {
        seq,
        end: note.key.end,
        id: note.key.id,
        request: note.key.request,
        fate: fate_of(note.ran),
    }
}

/// Adds the notes of the desk of a sequence.
pub fn push_shown(all: &mut Vec<TextNote>, seq: SeqId, notes: &[Note]) -> Result<(), AllocError>
    ensures { OnOk result (all.new.items ≡ all.old.items ++ map (shown seq) notes.now) }
{
    for note in notes {
        all.push(shown(seq, *note))?;
    }
    Ok(())
}
