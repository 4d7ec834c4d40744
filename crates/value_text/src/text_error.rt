//! Why a text is not read.

ghost use Rattle.std.specs.Prelude.{◌≡◌};

use thiserror::Error;

/// Why bytes are no value's text.
#[derive(Clone, Copy, Debug, Error)]
pub enum TextError {
    /// The first byte with which no text of the kind goes on; at the end, the length.
    #[error("bad text at byte {at}")]
    BadText { at: u64 },
    /// Memory ran out, which may befall any text.
    #[error("out of memory")]
    Memory,
}
