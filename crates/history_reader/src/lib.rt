//! Histories from their texts.
#![tactic(auto)]

mod arrows;
mod commands;
mod flowed;
mod flows;
mod history;
mod laws;
mod lines;
mod noted;
mod notes;
mod notices;
mod printed;
mod reasons;
mod replies;

pub use history::read_history;
pub use laws::{
    fitting_messages_are_said, one_history, one_text, texts_are_read_back,
    what_is_read_has_that_text,
};
pub use printed::Printed;
