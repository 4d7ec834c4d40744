//! A script that was run, and the events and callbacks that it literally has.

ghost use Rattle.std.specs.Prelude.{◌≤◌};
ghost use Rattle.std.specs.Arc.{arc_value};
ghost use Rattle.mj_base.specs.declared.limits.TheConstants.{MAX_FILE_BYTES};
ghost use Rattle.call_script.specs.Sound.{IsScript};

use crate::callbacks::callbacks;
use crate::followed::both_agree;
use bind_model::History;
use bind_reference::left;
use call_script::{Script, ScriptError, read_script};
use handle_table::Thing;
use history_text::{Note, render};
use mj_base::Items;
use mj_base::limits::MAX_FILE_BYTES;
use mj_schema::Schema;
use past_reference::same::are_same_events;
use script_names::NoMemory;
use script_reference::events_of;
use script_run::{Ran, run_alone};
use std::alloc::{AllocError, Global};
use std::io;
use std::io::Print;
use std::sync::Arc;

/// What comes of a script: what its run left, and all events, what became of callbacks and what isn't closed by
/// the definition; and whether the events are followed alike on a core and by tables.
#[derive(Drop)]
pub struct Played {
    ran: Ran,
    pub events: History,
    notes: Vec<Note>,
    left: Vec<Thing>,
    agrees: bool,
}

/// What a run of a script in an order leaves.
fn run(alloc: Global, schema: &Arc<Schema>, script: &Script, order: u64) -> Result<Ran, AllocError>
    requires script { IsScript (arc_value schema.now) script.now }
    requires short { script.now.bytes ≤ MAX_FILE_BYTES }
{
    let Ok(shared) = Arc::try_clone(schema) else {
        return Err(AllocError);
    };
    match run_alone(alloc, shared, script, order) {
        Ok(ran) => Ok(ran),
        Err(NoMemory) => Err(AllocError),
    }
}

impl Played {
    /// What comes of a text in an order; none where it is no script, or one of more bytes than a file has.
    pub fn new(
        alloc: Global,
        schema: &Arc<Schema>,
        text: &str,
        order: u64,
    ) -> Result<Option<Played>, AllocError> {
        let script = match read_script(alloc, schema, text.as_bytes()) {
            Ok(script) => script,
            Err(ScriptError::Refused { .. }) => return Ok(None),
            Err(ScriptError::Memory) => return Err(AllocError),
        };
        if script.bytes as u64 > MAX_FILE_BYTES {
            return Ok(None);
        }
        let ran = run(alloc, schema, &script, order)?;
        let events = events_of(alloc, schema, &script, order)?;
        let agrees = both_agree(alloc, schema, &script, &events)?;
        let notes = callbacks(alloc, script.seqs, &events)?;
        let left = left(alloc, script.seqs, &events)?;
        Ok(Some(Played {
            ran,
            events: History::from_items(Items::from_vec(events)),
            notes,
            left,
            agrees,
        }))
    }

    /// Whether the run is the one that the definition gives, and both engines that follow events agree.
    pub fn is_right(&self, alloc: Global) -> Result<bool, AllocError> {
        let is_history = are_same_events(
            alloc,
            self.ran.history.as_slice(),
            self.events.as_slice(),
        )?;
        let are_notes = self.ran.notes.as_slice() == self.notes.as_slice();
        let is_left = self.ran.left.as_slice() == self.left.as_slice();
        Ok(is_history && are_notes && is_left && self.agrees)
    }

    /// Prints both histories.
    pub fn print<R: Print + AllocGlobal>(&self, rt: &R, schema: &Schema) -> io::Result<()> {
        let (notes, left) = (self.ran.notes.as_slice(), self.ran.left.as_slice());
        let run = render(rt.alloc(), schema, &self.ran.history, notes, left)?;
        let wanted = render(rt.alloc(), schema, &self.events, &self.notes, &self.left)?;
        println!(rt; "the run:\n{}", str::from_utf8(&run).unwrap_or(""))?;
        println!(rt; "wanted:\n{}", str::from_utf8(&wanted).unwrap_or(""))
    }
}
