//! Takes by the tables of events: what the oldest unread message at an end says there, and what comes out of it, by their names.
#![tactic(auto)]

mod dropping;
mod forgetting;
mod hearing;
mod obeying;
mod reading;
mod receiving;
mod taking;

pub use forgetting::{forget_all, forget_at};
pub use taking::{paused_by, take};
