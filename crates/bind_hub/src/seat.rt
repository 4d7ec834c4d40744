//! A stepper over a hub.

ghost use Rattle.std.specs.Prelude.{◌≡◌, false};
ghost use Rattle.bind_hub.specs.Hubs.{schema_in, seqs_in};
ghost use Rattle.bind_hub.specs.Passes.{IsPassOf, seq_at};

use crate::shared::{Hub, Pass};
use bind_model::{Command, Refused, Reply, Stepper};
use mj_base::SeqId;
use std::alloc::Global;
use std::sync::Wait;

/// A pass at its hub. It must be spent.
pub struct Seat<'h, W: Wait> {
    pub hub: &'h Hub,
    pub rt: &'h W,
    pub pass: Pass,
    pub ghost is_pass: { IsPassOf hub.now.turn.board.shared.table_id (schema_in hub.now) (seqs_in hub.now)
        pass.number pass.place.table_id pass.place.me.0 },
}

impl<'h, W: Wait> Seat<'h, W> {
    /// A pass sits down at its hub.
    pub fn new(hub: &'h Hub, rt: &'h W, pass: Pass) -> Seat<'h, W>
        requires { IsPassOf hub.now.turn.board.shared.table_id (schema_in hub.now) (seqs_in hub.now)
            pass.number pass.place.table_id pass.place.me.0 }
        ensures { (result.hub.now ≡ hub.now) × (result.pass ≡ pass) }
    {
        Seat { hub, rt, pass }
    }

    /// The pass again.
    pub fn into_pass(self) -> Pass
        ensures pass { result ≡ self.entry.pass }
    {
        let Seat {
            hub: _,
            rt: _,
            pass,
        } = self;
        pass
    }
}

impl<W: Wait> Stepper for Seat<'_, W> {
    type Home = Hub;

    ghost home = { λ s. s.hub.now };

    ghost schema = { λ s. schema_in s.hub.now };

    ghost seqs = { λ s. seqs_in s.hub.now };

    ghost alone = { λ s. false };

    ghost me = { λ s. seq_at s.pass.number };

    ghost seen = { λ s. s.pass.place.me.0.seen };

    fn seq(&self) -> SeqId {
        SeqId(self.pass.number as u32)
    }

    fn step(&mut self, alloc: Global, command: Command) -> Result<Reply, Refused> {
        self.hub.step(self.rt, alloc, &mut self.pass, command)
    }
}
