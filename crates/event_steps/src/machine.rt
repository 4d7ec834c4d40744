//! The machine.

ghost use Rattle.std.specs.Prelude.{◌≡◌, ◌<◌, [], length, IfOk, OnOk};
ghost use Rattle.mj_base.specs.declared.limits.TheConstants.{MAX_EVENTS};
ghost use Rattle.bind_model.specs.Left.{left};
ghost use Rattle.bind_model.specs.Ready.{ready};
ghost use Rattle.core_state.specs.Agreement.{schema_of};
ghost use Rattle.event_tables.specs.AsCore.{Steps, past_by, state_of, wire_by};
ghost use Rattle.plain_names.specs.Commands.{IsFor, asked_in};
ghost use Rattle.event_steps.specs.Standing.{Stands};

use crate::left::left;
use crate::near::end_named;
use crate::steps::step;
use crate::waking::{clear_woken, note_wait, woken_ends};
use crate::watched::Watched;
use bind_core::Waiting;
use event_tables::EventTables;
use event_takes::forget_all;
use handle_table::Thing;
use mj_base::{EndId, SeqId};
use mj_schema::Schema;
use plain_names::PlainCommand;
use std::alloc::{AllocError, Global};
use std::sync::Arc;

/// The tables of all events, the ends where a take may be ready, and those that wait.
#[derive(Drop)]
pub struct Machine {
    pub tables: EventTables,
    /// Each end where a take is ready, and maybe others: `ready` need not walk over all ends.
    pub watched: Watched,
    /// The ends that wait for others, by what ends their waits.
    pub waiting: Waiting,
}

impl Machine {
    /// A machine of this schema, with no events. Takes no memory.
    pub fn new(alloc: Global, schema: Arc<Schema>, seqs: u32) -> Machine
        ensures stands { Stands result }
        ensures schema { result.tables.schema ≡ schema }
        ensures seqs { result.tables.seqs ≡ seqs }
        ensures events { result.tables.log.events ≡ [] }
    {
        let tables = EventTables::new(alloc, schema, seqs);
        let watched = Watched::new(alloc);
        let waiting = Waiting::new(alloc);
        Machine {
            tables,
            watched,
            waiting,
        }
    }

    /// Does one command of a sequence: there is one event more, with the reply that the events before it
    /// give. Without memory nothing is known of the machine any more.
    pub fn step(
        &mut self,
        alloc: Global,
        seq: SeqId,
        command: PlainCommand,
    ) -> Result<(), AllocError>
        requires stands { Stands self.old }
        requires seq { seq.0 < self.old.tables.seqs }
        requires few { length self.old.tables.log.events < MAX_EVENTS }
        requires prepared { IsFor (schema_of (state_of self.old.tables)) command }
        ensures steps { OnOk result (Steps self.old.tables self.new.tables seq (asked_in command)) }
        ensures stands { OnOk result (Stands self.new) }
    {
        let end = end_named(&command);
        note_wait(&mut self.waiting, alloc, &command)?;
        self.watched.add_near(&self.tables, end)?;
        step(&mut self.tables, alloc, seq, command)?;
        let woken = woken_ends(alloc, &self.waiting, &self.tables)?;
        let ends = woken.as_slice();
        forget_all(&mut self.tables.tables.notices, &self.tables.pipes, ends);
        self.watched.add_ready(&self.tables, ends)?;
        clear_woken(&mut self.waiting, &self.tables);
        self.watched.settle(&self.tables, end);
        self.watched.settle_gone(&self.tables);
        Ok(())
    }

    /// The least end where a take would consume a message or find it bad, behind the sequence that takes
    /// there; none exactly where there is no such end. An end that waits for another isn't such. Takes no
    /// memory.
    pub fn ready(&self) -> Option<(SeqId, EndId)>
        requires { Stands self.now }
        ensures { result ≡ ready (wire_by self.now.tables) (past_by self.now.tables) }
    {
        self.watched.first_taken(&self.tables)
    }

    /// What isn't closed: the ends before the tokens, both by sequence and by number.
    pub fn left(&self, alloc: Global) -> Result<Vec<Thing>, AllocError>
        requires { Stands self.now }
        ensures { IfOk result (λ things. things.items ≡ left self.now.tables.seqs (past_by self.now.tables)) }
    {
        left(&self.tables, alloc)
    }
}
