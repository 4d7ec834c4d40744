//! What the events of a history say, in tables of names: what a core keeps, with things in place of their handles. One event more is
//! noted with the reply that the events before give; nobody gets a handle, and none is needed.
#![tactic(auto)]

mod answering;
mod binding;
mod calling;
mod carrying;
mod closing;
mod controls;
mod looks;
mod making;
mod moving;
mod notices;
mod raw_bytes;
mod tables;
mod unsent;
mod waits;
mod ways;

pub use answering::answer;
pub use binding::{associate, attach, bind};
pub use calling::{Sending, call};
pub use carrying::put_all;
pub use closing::{close_endpoint, close_responder, close_thing};
pub use controls::{emit_all, emit_version};
pub use looks::goes_with;
pub use making::{data, join, mint, pipe};
pub use moving::flow;
pub use notices::notify;
pub use raw_bytes::raw;
pub use tables::{EventTables, refuse};
pub use unsent::close_pending;
pub use waits::pause;
