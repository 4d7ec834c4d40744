//! Controls: the messages by which the two ends of a pipe speak of their endpoints, in bytes.
#![tactic(auto)]

mod control;
mod judge;
mod kinds;
pub mod laws;
mod read;
mod write;

pub use control::Control;
pub use kinds::{
    CLOSED_KIND, FLUSH_KIND, LONG_BYTES, QUERY_KIND, REQUIRE_KIND, SHORT_BYTES, VERSION_KIND,
};
pub use read::read_control;
pub use write::write_control;
