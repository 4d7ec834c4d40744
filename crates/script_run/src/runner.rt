//! A whole run.

ghost use Rattle.std.specs.Prelude.{◌≡◌, ◌≤◌, length, reverse, None, Some, Ok, IfOk, OnOk, ◌<◌, IfSome};
ghost use Rattle.std.specs.Arc.{arc_value};
ghost use Rattle.bind_model.specs.Replies.{Legal};
ghost use Rattle.bind_model.specs.WireOf.{wire_of};
ghost use Rattle.bind_model.specs.Left.{left};
ghost use Rattle.callback_laws.specs.Callbacks.{callbacks};
ghost use Rattle.call_script.specs.Sound.{IsScript};
ghost use Rattle.script_run.specs.OfScript.{OfScript};
ghost use Rattle.script_run.specs.Draining.{IsUnspent};

use crate::desks::at_rest;
use crate::draining::Drained;
use crate::order::in_order;
use crate::run::play;
use bind_core::Core;
use bind_model::History;
use call_script::Script;
use handle_table::{Ended, Thing};
use history_text::Note;
use mj_base::Items;
use mj_base::limits::{MAX_EVENTS, MAX_FILE_BYTES};
use mj_schema::Schema;
use script_names::{NoMemory, Rooms};
use std::alloc::Global;
use std::sync::Arc;

/// What a run leaves: its events in order; the things that aren't closed, the ends before the tokens,
/// each by sequence and by number; and what became of each callback, by sequence and by call.
#[derive(Drop)]
pub struct Ran {
    pub history: History,
    pub left: Items<Thing>,
    pub notes: Items<Note>,
}

/// Lets all go that sequences hold, once all is over.
fn retire_all(mut rooms: Vec<Rooms>, over: &Ended) {
    while let Some(room) = rooms.pop() {
        room.retire(over);
    }
    rooms.destroy_empty();
}

/// Ends a run: what it leaves, where it wasn't cut off. It never is but for want of memory. What is held in the rooms may then
/// be let go.
pub fn end(alloc: Global, drained: Drained, rooms: Vec<Rooms>) -> Result<Ran, NoMemory>
    requires { IfSome drained.cut IsUnspent }
    ensures whole { OnOk result (drained.cut ≡ None) }
    ensures history { IfOk result (λ ran. ran.history.events ≡ drained.core.events) }
    ensures left { IfOk result (λ ran. ran.left ≡ left drained.core.seqs (reverse drained.core.events)) }
    ensures notes { IfOk result (λ ran. drained.notes ≡ Ok ran.notes) }
{
    let Drained {
        core,
        notes,
        held,
        cut,
    } = drained;
    let left = core.left(alloc);
    let (history, over) = core.end();
    held.retire(&over);
    retire_all(rooms, &over);
    match (cut, left) {
        (None, Ok(left)) => Ok(Ran {
            history,
            left: Items::from_vec(left),
            notes: notes?,
        }),
        _ => Err(NoMemory),
    }
}

/// Runs a script to its end: the joins in order; then the lines, of which the sequence whose turn it is by
/// the order does its next one; and then takes until no message is ready. Directly after a take of a request
/// that an automatic reply is for comes the reply. Each call with a response has a callback, which runs where
/// the response is taken, and is dropped where it never is. The history has fewer than 16,777,216 events. Takes
/// time in proportion to the script and to what its commands take, and for each request that is taken to the
/// automatic replies.
pub fn run_alone(
    alloc: Global,
    schema: Arc<Schema>,
    script: &Script,
    order: u64,
) -> Result<Ran, NoMemory>
    requires script { IsScript (arc_value schema) script.now }
    requires short { script.now.bytes ≤ MAX_FILE_BYTES }
    ensures legal { IfOk result (λ ran. Legal (wire_of (arc_value schema)) script.now.seqs ran.history.events) }
    ensures script { IfOk result (λ ran. OfScript (arc_value schema) script.now (Some order) ran.history.events) }
    ensures left { IfOk result (λ ran. ran.left ≡ left script.now.seqs (reverse ran.history.events)) }
    ensures notes { IfOk result (λ ran. ran.notes ≡ callbacks script.now.seqs ran.history.events) }
    ensures few { IfOk result (λ ran. length ran.history.events < MAX_EVENTS) }
{
    let lines = in_order(alloc, script, order)?;
    let rests = at_rest(alloc, script.seqs)?;
    let Ok(shared) = Arc::try_clone(&schema) else {
        return Err(NoMemory);
    };
    let core = Core::new(alloc, shared, script.seqs);
    let mut rooms = Vec::new(alloc);
    let drained = play(
        core,
        &mut rooms,
        alloc,
        &schema,
        script,
        lines.as_slice(),
        rests,
    );
    end(alloc, drained, rooms)
}
