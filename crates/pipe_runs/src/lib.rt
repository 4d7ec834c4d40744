//! Runs of commands at the ends of pipes, over whatever keeps the ends: the plain form is one that does.
#![tactic(auto)]

mod end_list;
mod ends;
pub mod laws;
mod queues;
mod run;
mod slab_queues;

pub use ends::Ends;
pub use queues::Queues;
pub use run::{QueueCommand, QueueReply, run_queues};
