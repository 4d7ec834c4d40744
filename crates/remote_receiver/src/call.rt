//! What a call answers.

use bind_model::{Command, Why};
use mj_base::Items;

/// A call that was sent: the request id (0 where no response is expected), and the bytes.
#[derive(Drop)]
pub struct Sent {
    pub request: u64,
    pub bytes: Items<u8>,
}

/// Why a call wasn't sent. The command comes back with the job.
pub enum CallRefused<C> {
    /// It is refused, which is an event.
    No(Why, Command, Option<C>),
    /// There was no memory for it.
    Memory(Command, Option<C>),
    /// The history has 16,777,216 events.
    Spent(Command, Option<C>),
}
