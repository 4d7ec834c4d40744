//! What became of a job.

use response_map::Key;

/// A job by the request that it was given with: whether it ran, and what it answered, 0 where it didn't
/// run.
#[derive(Clone, Copy, PartialEq, Eq)]
pub struct Note {
    pub key: Key,
    pub ran: bool,
    pub note: u64,
}
