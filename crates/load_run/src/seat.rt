//! The core of a load. It lies apart, so that what hands it on hands on one word.

ghost use Rattle.std.specs.Prelude.{◌≡◌, ◌<◌, ◌≤◌, ◌++◌, [], ◌∷◌, true, length, reverse, IfOk, IfErr, OnOk};
ghost use Rattle.std.specs.Arc.{arc_value};
ghost use Rattle.mj_base.specs.declared.limits.TheConstants.{MAX_EVENTS};
ghost use Rattle.bind_model.specs.Plain.{asked_of, told_of, HandsBack, HandsPendings, HandsResponders, command_of, IsSpentAt, IsOf};
ghost use Rattle.bind_model.specs.Replies.{Legal};
ghost use Rattle.bind_model.specs.WireOf.{wire_of};
ghost use Rattle.bind_core.specs.Play.{told_at};
ghost use Rattle.load_run.specs.Commands.{SEQUENCES};

use bind_core::Core;
use bind_model::{Command, History, Refused, Reply, Stepper};
use mj_base::SeqId;
use mj_schema::Schema;
use script_names::NoMemory;
use std::alloc::Global;
use std::marker::Model;
use std::sync::Arc;

/// A core in a place of its own. Contracts see the core.
pub(crate) struct BoxedCore {
    inner: Box<Core>,
}

impl Model for BoxedCore {
    ghost use Rattle.std.specs.Coded.{codes};
    ghost use Rattle.mj_schema.specs.contracts.schema.Schema as schema;
    ghost use Rattle.bind_core.specs.Play.{Play};
    ghost use Rattle.kept_values.specs.steps.TreeCodes.{tree_code};

    ghost Value = { Play };

    ghost coded = { Prim.hlevel (codes, schema.the_row.coded, tree_code (Prim.hlevel codes)) };

    ghost view = { λ core. core.inner.value };
}

impl BoxedCore {
    /// Does one command of a sequence, as the core does it.
    pub(crate) fn step(
        &mut self,
        alloc: Global,
        seq: SeqId,
        command: Command,
    ) -> Result<Reply, Refused>
        requires seq { seq.0 < self.old.seqs }
        requires prepared { IsOf self.old.schema command }
        ensures same { (self.new.schema ≡ self.old.schema) × (self.new.seqs ≡ self.old.seqs) }
        ensures event { IfOk result (λ reply. self.new.events ≡
            self.old.events ++ record { seq = seq; asked = asked_of command; told = told_at self.old seq command } ∷ []) }
        ensures told { IfOk result (λ reply. told_of reply ≡ told_at self.old seq command) }
        ensures back { IfOk result (λ reply. HandsBack command reply) }
        ensures responders { IfOk result (λ reply. HandsResponders (wire_of self.old.schema) command reply) }
        ensures pendings { IfOk result (λ reply. HandsPendings (wire_of self.old.schema) (reverse self.new.events) command reply) }
        ensures refused { IfErr result (λ refused. (command_of refused ≡ command) × (self.new ≡ self.old)) }
        ensures room { OnOk result (length self.old.events < MAX_EVENTS) }
        ensures spent { IfErr result (λ refused. IsSpentAt (length self.old.events) refused) }
    {
        self.inner.step(alloc, seq, command)
    }

    /// All events so far.
    pub(crate) fn history(&self) -> &History
        ensures events { result.now.events ≡ self.now.events }
        ensures legal { Legal (wire_of self.now.schema) self.now.seqs self.now.events }
        ensures few { length self.now.events ≤ MAX_EVENTS }
    {
        self.inner.history()
    }

    /// The core.
    pub(crate) fn into_core(self) -> Core
        ensures { result ≡ self }
    {
        let BoxedCore { inner } = self;
        Box::into_inner(inner)
    }
}

/// A core of four sequences, with no events.
pub(crate) fn new_core(alloc: Global, schema: Arc<Schema>) -> Result<BoxedCore, NoMemory>
    ensures { IfOk result (λ core. core ≡ record { schema = arc_value schema; seqs = SEQUENCES; events = [] }) }
{
    let core = Core::new(alloc, schema, 4);
    match Box::new(alloc, core) {
        Ok(inner) => Ok(BoxedCore { inner }),
        Err(failed) => {
            let core = failed.value;
            let (_history, _over) = core.end();
            Err(NoMemory)
        }
    }
}

/// A core that one of its sequences steps, and nobody else meanwhile.
pub(crate) struct Seat {
    pub core: BoxedCore,
    pub seq: SeqId,
}

impl Stepper for Seat {
    type Home = ();

    ghost home = { λ seat. tt };

    ghost schema = { λ seat. seat.core.schema };

    ghost seqs = { λ seat. seat.core.seqs };

    ghost alone = { λ seat. true };

    ghost me = { λ seat. seat.seq };

    ghost seen = { λ seat. seat.core.events };

    fn seq(&self) -> SeqId {
        self.seq
    }

    fn step(&mut self, alloc: Global, command: Command) -> Result<Reply, Refused> {
        self.core.step(alloc, self.seq, command)
    }
}
