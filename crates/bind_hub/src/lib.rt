//! A core that its sequences share, each through a pass of its own: one of them at a time has its turn with the core, and each has seen a
//! beginning of the one history.
#![tactic(auto)]

mod hub;
mod kept;
mod seat;
mod shared;

pub use kept::Kept;
pub use seat::Seat;
pub use shared::{Hub, Pass};
