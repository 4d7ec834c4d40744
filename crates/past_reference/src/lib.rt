//! What the events before say, computed literally: what was made, who has it, which endpoints there are, and what
//! lies unread and who waits, read off the whole list anew each time; whether two histories are the same; and what
//! refuses. Plain, slow, and apart from the code that is proved of the definitions. `bind_reference` reads the machine's
//! replies off it.
#![tactic(auto)]

pub mod entering;
pub mod goes;
pub mod kinds;
pub mod mail;
pub mod notices;
pub mod past;
pub mod pendings;
pub mod refusals;
pub mod responders;
pub mod same;
pub mod values;
pub mod wire;
