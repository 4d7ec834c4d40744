//! The names of a script's sequences as plain data: what stands and is held under them, what lines ask with it, and what an event
//! changes. Nobody has a handle.
#![tactic(auto)]

mod commands;
mod handing;
mod lines;
mod named;
mod settling;
mod slots;
mod spending;

pub use commands::PlainCommand;
pub use handing::responder_of;
pub use lines::command_of;
pub use named::PlainNames;
pub use settling::{settle, stand_for};
pub use slots::Slots;
