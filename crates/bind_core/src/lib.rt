//! The machine: a core that does commands, keeps their history, and hands out handles.
#![tactic(auto)]

mod alone;
mod commands;
mod end_set;
mod left;
mod machine;
mod takers;
mod waiting;
pub mod waits;
mod watch;

pub use alone::Alone;
pub use machine::Core;
pub use takers::{bound_on, id_meant, taker_for};
pub use waiting::{Cause, Waiting};
