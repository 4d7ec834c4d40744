//! What became of the callbacks of a history's calls, by its events alone.
#![tactic(auto)]

mod answered;
mod notes;

pub use notes::callbacks;
