//! Compares what the proved code makes of small messages with what they literally stand for: of each
//! message of a file, all its cuts, and each word of it changed to a few telling others.
#![tactic(auto)]

mod case;
pub mod compare;
mod edits;
mod files;
mod getters;

pub use case::push_hexadecimal;
pub use files::run;
