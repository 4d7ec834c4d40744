//! What a hub does: it is started, stepped through its passes, which meet, and closed.

ghost use Rattle.std.specs.Prelude.{ℕ, ◌≡◌, ◌≤◌, ◌<◌, length, reverse, IfOk, IfErr, Some, slice_get};
ghost use Rattle.std.specs.Arc.{arc_value};
ghost use Rattle.mj_base.specs.declared.limits.TheConstants.{MAX_EVENTS};
ghost use Rattle.bind_model.specs.Replies.{Legal};
ghost use Rattle.bind_model.specs.WireOf.{wire_of};
ghost use Rattle.bind_model.specs.Plain.{IsOf};
ghost use Rattle.group_laws.specs.Apart.{GroupsApart};
ghost use Rattle.bind_hub.specs.Hubs.{schema_in, seqs_in};
ghost use Rattle.bind_hub.specs.Kept.{CoreSteps};
ghost use Rattle.bind_hub.specs.Passes.{IsFirst, IsPassOf, Steps, Rests, Met, IsIn};

use crate::kept::Kept;
use crate::shared::{Hub, Pass};
use bind_core::Core;
use bind_model::{Command, Refused, Reply};
use mj_base::SeqId;
use mj_schema::Schema;
use std::alloc::{AllocError, Global};
use std::sync::{Arc, Wait};
use turn_lock::Turn;

impl Hub {
    /// A hub of a core without events, and a pass for each sequence, in order.
    pub fn start(
        alloc: Global,
        schema: Arc<Schema>,
        seqs: u32,
    ) -> Result<(Hub, Vec<Pass>), AllocError>
        requires { 0 < seqs }
        ensures hub { IfOk result (λ r. (schema_in r.0 ≡ arc_value schema) × (seqs_in r.0 ≡ seqs)) }
        ensures passes { IfOk result (λ r. (length r.1.items ≡ seqs) × ((k : ℕ) (p : _) → slice_get r.1.items k ≡ Some p
            → IsFirst r.0.turn.board.shared.table_id (arc_value schema) seqs k p.number p.place.table_id p.place.me.0)) }
    {
        let core = Core::new(alloc, schema, seqs);
        match Turn::new(alloc, Kept { core }, seqs as usize) {
            Ok((turn, passes)) => Ok((Hub { turn }, passes)),
            Err((kept, failed)) => {
                let Kept { core } = kept;
                let _history = core.end();
                Err(failed)
            }
        }
    }

    /// Each pass then has seen all that both had. Waits for nobody.
    pub fn meet(&self, one: &mut Pass, two: &mut Pass)
        requires one { IsPassOf self.now.turn.board.shared.table_id (schema_in self.now) (seqs_in self.now)
            one.old.number one.old.place.table_id one.old.place.me.0 }
        requires two { IsPassOf self.now.turn.board.shared.table_id (schema_in self.now) (seqs_in self.now)
            two.old.number two.old.place.table_id two.old.place.me.0 }
        ensures one { (one.new.number ≡ one.old.number)
            × IsPassOf self.now.turn.board.shared.table_id (schema_in self.now) (seqs_in self.now)
            one.new.number one.new.place.table_id one.new.place.me.0
            × Met (schema_in self.now) (seqs_in self.now) one.old.place.me.0 two.old.place.me.0 one.new.place.me.0 }
        ensures two { (two.new.number ≡ two.old.number)
            × IsPassOf self.now.turn.board.shared.table_id (schema_in self.now) (seqs_in self.now)
            two.new.number two.new.place.table_id two.new.place.me.0
            × Met (schema_in self.now) (seqs_in self.now) two.old.place.me.0 one.old.place.me.0 two.new.place.me.0 }
    {
        self.turn.meet(one, two);
    }

    /// Takes all passes in, and gives the core. Its history begins with all that each pass has seen, and has of each sequence just what
    /// its pass made.
    pub fn close(self, passes: Vec<Pass>) -> Core
        requires passes { (k : ℕ) (p : _) → slice_get passes.items k ≡ Some p
            → IsPassOf self.turn.board.shared.table_id (schema_in self) (seqs_in self) p.number p.place.table_id p.place.me.0 }
        requires all { (n : ℕ) → n < seqs_in self → (k : ℕ) × (p : _) × (slice_get passes.items k ≡ Some p) × (p.number ≡ n) }
        ensures core { (result.schema ≡ schema_in self) × (result.seqs ≡ seqs_in self) }
        ensures legal { Legal (wire_of result.schema) result.seqs result.events }
        ensures few { length result.events ≤ MAX_EVENTS }
        // Where no command links a group of sequences with others, its events alone are a legal history.
        ensures groups_apart { GroupsApart (wire_of result.schema) result.seqs (reverse result.events) }
        ensures passes { (k : ℕ) (p : _) → slice_get passes.items k ≡ Some p → IsIn p.number p.place.me.0 result.events }
    {
        let Hub { turn } = self;
        let Kept { core } = turn.close(passes);
        // It is never longer than a history may be, and groups of sequences that nothing links don't meet in it.
        let _history = core.history();
        core
    }

    /// Does one command of the pass's sequence, in one turn: waits until the turn is free. The history gains its event with the reply that
    /// the events before give, or, without memory or with 16,777,216 events, nothing happens and the command comes back.
    pub fn step<W: Wait>(
        &self,
        rt: &W,
        alloc: Global,
        pass: &mut Pass,
        command: Command,
    ) -> Result<Reply, Refused>
        requires pass { IsPassOf self.now.turn.board.shared.table_id (schema_in self.now) (seqs_in self.now)
            pass.old.number pass.old.place.table_id pass.old.place.me.0 }
        requires prepared { IsOf (schema_in self.now) command }
        ensures number { pass.new.number ≡ pass.old.number }
        ensures pass { IsPassOf self.now.turn.board.shared.table_id (schema_in self.now) (seqs_in self.now)
            pass.new.number pass.new.place.table_id pass.new.place.me.0 }
        ensures event { IfOk result (λ reply. Steps (schema_in self.now) (seqs_in self.now)
            pass.old.number pass.old.place.me.0 pass.new.place.me.0 command reply) }
        ensures refused { IfErr result (λ refused. Rests (schema_in self.now) (seqs_in self.now)
            pass.old.number pass.old.place.me.0 pass.new.place.me.0 command refused) }
    {
        let seq = SeqId(pass.number as u32);
        self.turn.with(
            rt,
            pass,
            command,
            |kept: &mut Kept, command: Command| -> Result<Reply, Refused>
                requires { (seq.0 < kept.old.core.seqs) × IsOf kept.old.core.schema command }
                ensures { CoreSteps kept.old.core seq command result kept.new.core }
            { kept.step(alloc, seq, command) },
        )
    }
}
