//! The limits of the machine.

use mj_base::limits::MAX_PAYLOAD_BYTES;

/// The most bytes that may be written raw as one message: as many as a payload may have.
pub const MAX_RAW_BYTES: u64 = MAX_PAYLOAD_BYTES;

/// The most handles that may be written raw with one message.
pub const MAX_RAW_HANDLES: usize = 64;

/// The most bytes that a data pipe may be made to hold.
pub const MAX_DATA_BYTES: u32 = 65_536;

/// The ids that an end makes for endpoints are 1, 2, 3 and so on, with this added where its endpoint 0
/// is a remote, so that the two ends of a pipe never make the same.
pub const REMOTE_IDS: u32 = 2_147_483_648;
