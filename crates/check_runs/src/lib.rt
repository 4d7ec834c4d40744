//! Compares the runs of scripts with those that they literally have: of each walk of a file, all scripts of a
//! few lines, on one thread and with a thread for each sequence.
#![tactic(auto)]

mod at_once;
pub mod callbacks;
mod compare;
mod followed;
mod gate;
mod held;
mod played;
mod tally;
mod threaded;
pub mod walk;

pub use compare::run;
pub use played::Played;
pub use threaded::run_threads;
