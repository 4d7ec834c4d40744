//! The machine on small inputs, computed literally: the one reply to a command, which end is ready, and what events
//! leave are read off the list of the events before, anew each time; what was made, where it is and what lies unread,
//! by past_reference, and what data pipes reply, by data_reference. Plain, slow, and apart from the code that is proved
//! of the definitions. The program `check_cores` compares the two, and `check_runs` runs of scripts, by script_reference.
#![tactic(auto)]

mod answering;
mod call;
mod close;
mod endpoints;
mod notify;
mod raw;
mod remaining;
mod replies;
mod sending;
mod take;
mod turns;

pub use remaining::left;
pub use replies::answer;
pub use turns::ready;
