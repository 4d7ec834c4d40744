//! The tables.

ghost use Rattle.std.specs.Prelude.{◌≡◌, []};
ghost use Rattle.bind_model.specs.declared.told.Told.{Told};
ghost use Rattle.core_state.specs.Agreement.{Holds};
ghost use Rattle.core_state.specs.Doing.{HasRoom, told_to};
ghost use Rattle.event_tables.specs.AsCore.{Steps, state_of};

use bind_model::{Asked, Event, History, PendingNames, ResponderTable, Told, Why};
use core_state::{Routers, Tables};
use message_pipe::ThingPipes;
use mj_base::SeqId;
use mj_schema::Schema;
use std::alloc::Global;
use std::sync::Arc;

/// The schema, how many sequences there are, all events, and what these say: pipes with the places of all
/// things, the routers of ends, what is kept of controls and of data pipes, and whom the rights are of.
#[derive(Drop)]
pub struct EventTables {
    pub schema: Arc<Schema>,
    pub seqs: u32,
    pub log: History,
    pub pipes: ThingPipes,
    pub endpoints: Routers,
    pub tables: Tables,
    pub responders: ResponderTable,
    pub pendings: PendingNames,
}

impl EventTables {
    /// The tables of no events. Takes no memory.
    pub fn new(alloc: Global, schema: Arc<Schema>, seqs: u32) -> EventTables
        ensures holds { Holds (state_of result) }
        ensures schema { result.schema ≡ schema }
        ensures seqs { result.seqs ≡ seqs }
        ensures events { result.log.events ≡ [] }
    {
        EventTables {
            schema,
            seqs,
            log: History::new(alloc),
            pipes: ThingPipes::new(alloc),
            endpoints: Routers::new(alloc),
            tables: Tables::new(alloc),
            responders: ResponderTable::new(alloc),
            pendings: PendingNames::new(alloc),
        }
    }
}

/// Notes that what a sequence asks is refused.
pub fn refuse(tables: &mut EventTables, seq: SeqId, asked: Asked, why: Why)
    requires able { HasRoom (state_of tables.old) seq }
    requires why { told_to (state_of tables.old) seq asked ≡ Told.No why }
    ensures { Steps tables.old tables.new seq asked }
{
    tables.log.push_reserved(Event {
        seq,
        asked,
        told: Told::No(why),
    });
}
