//! The machine by names: a step of any command, the end that is taken from next, and what is left. It keeps the tables of its events
//! and does what a core does, but nobody has handles.
#![tactic(auto)]

mod left;
mod machine;
mod near;
mod newest;
mod steps;
mod takers;
mod waking;
mod watched;

pub use machine::Machine;
pub use newest::last_event;
pub use watched::Watched;
