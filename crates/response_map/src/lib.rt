//! Callbacks of calls that wait for their responses.
#![tactic(auto)]

mod key;
mod newest;
mod responses;
mod scope;
mod settled;

pub use key::Key;
pub use responses::ResponseMap;
