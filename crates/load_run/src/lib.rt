//! A load: a large valid run from two numbers, and its five counts.
#![tactic(auto)]

mod asking;
mod counts;
mod desks;
mod ends;
pub mod laws;
mod messages;
mod outgoing;
mod pairs;
mod seat;
mod sending;
mod start;
mod targets;
mod values;
mod whole;

pub use counts::Counts;
pub use whole::load;
