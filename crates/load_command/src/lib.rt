//! The command `load`: from a seed and a number of messages to the line of what a load of so many did.
#![tactic(auto)]

mod load_file;
mod load_line;

pub use load_line::load_text;
