//! Rules over bytes: what a rule spells, how it begins, and how it is read.
#![tactic(auto)]

mod bytes;
mod stop;
mod words;

pub use bytes::{expect, is_next};
pub use stop::Stop;
pub use words::{common, nearer};
