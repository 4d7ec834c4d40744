//! Runs scripts with a worker for each sequence: the joins through the sequences' passes, the lines of each sequence in a thread of its
//! own, over one hub, and then the takes on the core that the hub leaves.
#![tactic(auto)]

mod crew;
mod joining;
mod joins;
mod play;
mod seats;
mod sharing;
mod workers;

pub use play::run_at_once;
