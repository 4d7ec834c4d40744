//! The only one that steps a core.

ghost use Rattle.std.specs.Prelude.{true};

use crate::machine::Core;
use bind_model::{Command, Refused, Reply, Stepper};
use mj_base::SeqId;
use std::alloc::Global;

/// The only one that steps a core.
#[derive(Drop)]
pub struct Alone<'a> {
    pub core: &'a mut Core,
    pub seq: SeqId,
}

impl Stepper for Alone<'_> {
    type Home = ();

    ghost home = { λ a. tt };

    ghost schema = { λ a. a.core.now.schema };

    ghost seqs = { λ a. a.core.now.seqs };

    ghost alone = { λ a. true };

    ghost me = { λ a. a.seq };

    ghost seen = { λ a. a.core.now.events };

    fn seq(&self) -> SeqId {
        self.seq
    }

    fn step(&mut self, alloc: Global, command: Command) -> Result<Reply, Refused> {
        self.core.step(alloc, self.seq, command)
    }
}
