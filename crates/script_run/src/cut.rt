//! Why a run is cut off.

use thiserror::Error;

/// Why a sequence didn't do all of its lines.
#[derive(Clone, Copy, Debug, Error)]
pub enum Cut {
    #[error("out of memory")]
    Memory,
    /// The history has 16,777,216 events.
    #[error("the history is full")]
    Spent,
}
