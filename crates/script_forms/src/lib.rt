//! The lines of scripts: which words have which form, with names, interfaces, methods and values as words.
#![tactic(auto)]

mod form;
mod lines;
mod moving;
mod notices;
mod numbers;
mod parts;
mod saying;
mod sending;
mod sequences;

pub use form::{Form, Moved, Said};
pub use lines::read_form;
pub use numbers::hex_bytes;
pub use sequences::{MAX_SEQUENCES, sequences_of};
