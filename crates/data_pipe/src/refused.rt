//! Why a data pipe moves no bytes.

ghost use Rattle.std.specs.Prelude.{◌≡◌};
ghost use Rattle.data_pipe.specs.History.{why_at};

use bind_model::Why;
use handle_table::TokenId;

/// Why a data pipe refuses.
#[derive(Clone, Copy, PartialEq, Eq)]
pub enum DataWhy {
    /// A data pipe doesn't hold so many bytes.
    BadSize(u32),
    /// Something was begun at this side, and hasn't ended.
    Busy,
    /// Nothing was begun at this side.
    Idle,
    /// The consumer is gone.
    Disconnected,
    /// There is no room.
    Full,
    /// There is room for so many bytes, or so many are held.
    Short(u32),
    /// Nothing is held.
    Empty,
    /// Nothing is held, and the producer is gone.
    PeerClosed,
    /// More than the space that was told, or than may be read.
    TooLong,
}

/// Why a data pipe isn't made, or no list of bytes comes out of it.
#[derive(Clone, Copy)]
pub enum DataRefused {
    /// For this cause.
    No(DataWhy),
    /// For want of memory.
    Memory,
}

impl DataWhy {
    /// The refusal of a command at the token of this side.
    pub fn at(self, token: TokenId) -> Why
        ensures { result ≡ why_at token self }
    {
        match self {
            DataWhy::BadSize(size) => Why::BadSize(size),
            DataWhy::Busy => Why::Busy(token),
            DataWhy::Idle => Why::Idle,
            DataWhy::Disconnected => Why::Disconnected,
            DataWhy::Full => Why::Full,
            DataWhy::Short(count) => Why::Short(count),
            DataWhy::Empty => Why::Empty,
            DataWhy::PeerClosed => Why::PeerClosed,
            DataWhy::TooLong => Why::TooLong,
        }
    }
}
