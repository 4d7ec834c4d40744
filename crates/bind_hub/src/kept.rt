//! A core as a turn sees it: its events, each of which names the pass of its sequence.

ghost use Rattle.std.specs.Prelude.{◌<◌};
ghost use Rattle.bind_model.specs.Plain.{IsOf};
ghost use Rattle.bind_hub.specs.Kept.{CoreSteps};

use bind_core::Core;
use bind_model::{Command, Event, Refused, Reply};
use mj_base::SeqId;
use mj_schema::Schema;
use std::alloc::Global;
use turn_lock::Entries;

/// The core of a hub, on which one of its passes at a time has a turn.
pub struct Kept {
    pub(crate) core: Core,
}

impl Kept {
    /// Does one command of a sequence, as the core does it.
    pub fn step(&mut self, alloc: Global, seq: SeqId, command: Command) -> Result<Reply, Refused>
        requires seq { seq.0 < self.old.core.seqs }
        requires prepared { IsOf self.old.core.schema command }
        ensures { CoreSteps self.old.core seq command result self.new.core }
    {
        self.core.step(alloc, seq, command)
    }
}

impl Entries for Kept {
    ghost use Rattle.std.specs.Prelude.{◌≡◌};
    ghost use Rattle.bind_hub.specs.Kept.{number_of, is_lawful};

    type Entry = Event;

    type Basis = (Schema, u32);

    ghost entries = { λ kept. kept.core.events };

    ghost number = { number_of };

    ghost basis = { λ kept. (kept.core.schema, kept.core.seqs) };

    ghost lawful = { is_lawful };

    fn count(&self) -> u64 {
        self.core.history().len() as u64
    }
}
