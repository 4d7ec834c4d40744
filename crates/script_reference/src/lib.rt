//! Runs of scripts on small inputs, computed literally: what the names of a script stand for, what its lines need and ask,
//! its events, in order or in the turns of a run with threads, and what events begin a run are read off the list of the events
//! before, anew each time; each reply and which end is ready, by bind_reference. Plain, slow, and apart from the code that is
//! proved of the definitions. The programs `check_runs` and `check_audits` compare the two.
#![tactic(auto)]

mod begun;
mod interleaved;
mod names;
mod needs;
mod replying;
mod script;

pub use begun::{go_on, is_whole};
pub use interleaved::events_by;
pub use script::events_of;
