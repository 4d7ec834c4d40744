//! A core and the sequence that steps it.

ghost use Rattle.std.specs.Prelude.{true};

use bind_core::Core;
use bind_model::{Command, Refused, Reply, Stepper};
use mj_base::SeqId;
use std::alloc::Global;

/// A core that one of its sequences steps, and nobody else meanwhile.
pub struct Seat {
    pub core: Core,
    pub seq: SeqId,
}

impl Stepper for Seat {
    type Home = ();

    ghost home = { λ seat. tt };

    ghost schema = { λ seat. seat.core.schema };

    ghost seqs = { λ seat. seat.core.seqs };

    ghost alone = { λ seat. true };

    ghost me = { λ seat. seat.seq };

    ghost seen = { λ seat. seat.core.events };

    fn seq(&self) -> SeqId {
        self.seq
    }

    fn step(&mut self, alloc: Global, command: Command) -> Result<Reply, Refused> {
        self.core.step(alloc, self.seq, command)
    }
}
