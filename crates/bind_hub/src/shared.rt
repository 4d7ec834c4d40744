//! The core of a hub, with its lock.

ghost use Rattle.std.specs.Prelude.{◌≡◌, ◌<◌, ◌^◌};

use crate::kept::Kept;
use turn_lock::Turn;

/// What a sequence steps a hub with. It must be spent.
pub type Pass = turn_lock::Pass<Kept>;

/// A core that the passes of its sequences share, of which one at a time has its turn. It must be closed. Threads may share it.
pub struct Hub {
    pub(crate) turn: Turn<Kept>,
    pub ghost some: { 0 < turn.board.shared.key.1 },
    pub ghost seats: { turn.board.shared.key.1 ≡ turn.board.shared.key.0.value.core.seqs },
    pub ghost few: { turn.board.shared.key.0.value.core.seqs < 2 ^ 32 },
}
