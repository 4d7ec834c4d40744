//! What an end keeps of the controls that ends write to each other: the queries that wait for a version, its flushes,
//! those that it consumed, and what it waits for itself; and the table of it for all ends.
#![tactic(auto)]

pub mod laws;
mod met;
mod notices;
mod queries;
mod table;
mod waits;

pub use met::MetFlushes;
pub use notices::Notices;
pub use queries::Queries;
pub use table::NoticeTable;
pub use waits::{Wait, Waits};
