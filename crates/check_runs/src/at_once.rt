//! A run with a thread for each sequence, by its text, and the text that it should have.

ghost use Rattle.std.specs.Prelude.{◌≤◌, IfOk, IfSome};
ghost use Rattle.std.specs.Arc.{arc_value};
ghost use Rattle.mj_base.specs.declared.limits.TheConstants.{MAX_FILE_BYTES};
ghost use Rattle.call_script.specs.Sound.{IsScript};

use crate::callbacks::callbacks;
use bind_model::{Event, History};
use bind_reference::left;
use call_script::{Script, ScriptError, read_script};
use history_reader::read_history;
use history_text::render;
use mj_base::Items;
use mj_base::limits::MAX_FILE_BYTES;
use mj_schema::Schema;
use script_reference::events_by;
use std::alloc::{AllocError, Global};
use std::sync::{Arc, Wait};
use std::thread::Threads;
use step_gate::{Gate, Gates};
use threaded_run::run_at_once;
use value_text::TextError;

/// The script of a text; none where it is no script, or one of more bytes than a file has.
pub fn script_of(alloc: Global, schema: &Schema, text: &str) -> Result<Option<Script>, AllocError>
    ensures sound { IfOk result (λ found. IfSome found (IsScript schema.now)) }
    ensures short { IfOk result (λ found. IfSome found (λ script. script.bytes ≤ MAX_FILE_BYTES)) }
{
    let script = match read_script(alloc, schema, text.as_bytes()) {
        Ok(script) => script,
        Err(ScriptError::Refused { .. }) => return Ok(None),
        Err(ScriptError::Memory) => return Err(AllocError),
    };
    if script.bytes as u64 > MAX_FILE_BYTES {
        return Ok(None);
    }
    Ok(Some(script))
}

/// The text of the history of a run.
pub fn run_text<R: Wait + Threads + Sync, G: Gate + Send + Drop, K: Gates<G>>(
    rt: &R,
    alloc: Global,
    schema: &Arc<Schema>,
    script: &Script,
    gates: &K,
) -> Result<Vec<u8>, AllocError>
    requires script { IsScript (arc_value schema.now) script.now }
    requires short { script.now.bytes ≤ MAX_FILE_BYTES }
{
    let Ok(shared) = Arc::try_clone(schema) else {
        return Err(AllocError);
    };
    let Ok(ran) = run_at_once(rt, alloc, shared, script, gates) else {
        return Err(AllocError);
    };
    let (notes, left) = (ran.notes.as_slice(), ran.left.as_slice());
    render(alloc, schema, &ran.history, notes, left)
}

/// A history that a script literally has, and its text with what became of callbacks and what isn't closed.
#[derive(Drop)]
pub struct Wanted {
    pub history: History,
    pub text: Vec<u8>,
}

/// The events that a script literally has where its sequences have their turns as a text says; none where that is the
/// text of no history, or leaves something undone.
fn literal_events(
    alloc: Global,
    schema: &Schema,
    script: &Script,
    text: &[u8],
) -> Result<Option<Vec<Event>>, AllocError> {
    match read_history(alloc, schema, text) {
        Ok(printed) => events_by(alloc, schema, script, printed.events.as_slice()),
        Err(TextError::BadText { .. }) => Ok(None),
        Err(TextError::Memory) => Err(AllocError),
    }
}

/// What a script literally has where its sequences have their turns as a text says, if it has a history with these.
pub fn wanted_run(
    alloc: Global,
    schema: &Schema,
    script: &Script,
    text: &[u8],
) -> Result<Option<Wanted>, AllocError> {
    let Some(events) = literal_events(alloc, schema, script, text)? else {
        return Ok(None);
    };
    let notes = callbacks(alloc, script.seqs, &events)?;
    let left = left(alloc, script.seqs, &events)?;
    let history = History::from_items(Items::from_vec(events));
    let text = render(alloc, schema, &history, &notes, &left)?;
    Ok(Some(Wanted { history, text }))
}

/// Whether a text is the one that is wanted.
pub fn is_wanted(wanted: Option<&Wanted>, text: &[u8]) -> bool {
    match wanted {
        Some(wanted) => wanted.text.as_slice() == text,
        None => false,
    }
}
