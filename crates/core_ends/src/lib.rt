//! Pipes, tokens, data pipes and endpoints: they are made, bound and closed.
#![tactic(auto)]

pub mod associate;
pub mod attach;
pub mod bind;
mod close;
pub mod data_pipes;
pub mod join;
pub mod mint;
mod unsent;

pub use close::{close_endpoint, close_handle};
pub use unsent::close_pending;
