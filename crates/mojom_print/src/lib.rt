//! The canonical text of a Mojom file.
#![tactic(auto)]

mod attributes;
mod definitions;
mod file;
mod interfaces;
pub mod laws;
mod types;
mod words;

pub use file::spell;
pub use words::{push_number, push_string, push_text};
