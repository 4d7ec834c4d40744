//! The text of histories of the machine.
#![tactic(auto)]

mod asked_text;
mod history;
mod message_text;
mod names;
mod notes;
mod parts;
mod shown;
mod shown_lists;
mod told_text;
mod words;
mod writing;

pub use history::{push_event, render};
pub use notes::{Fate, Note};
pub use words::fault_word;
