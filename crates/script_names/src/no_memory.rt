//! Want of memory.

use thiserror::Error;

/// There was no memory for the run.
#[derive(Clone, Copy, Debug, Error)]
#[error("out of memory")]
pub struct NoMemory;
