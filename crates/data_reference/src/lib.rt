//! Data pipes, computed literally: what went in and what came out is read off the list of the events before, anew each
//! time, and so are the replies to what is asked of them. Plain, slow, and apart from the code that is proved of the
//! definitions. `bind_reference` answers with these.
#![tactic(auto)]

mod pipes;
mod replies;

pub use replies::{busy, made, moved};
