//! What the words of the command line ask for.
#![tactic(auto)]

mod asked;
mod definition;
mod law;
mod read;

pub use asked::{Command, MessageCount, RunAtOnce, Side, Words, WordsError};
pub use law::{
    handles_are_digits, messages_are_digits, orders_are_digits, taken_words_have_a_command,
};
pub use read::read_words;
