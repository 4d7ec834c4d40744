//! Scripts of what the sequences of a machine ask.
#![tactic(auto)]

mod additions;
mod commands;
mod indexed_schema;
pub mod laws;
mod moving;
mod name_table;
mod reading;
mod script;
mod script_error;
mod targets;

pub use reading::read_script;
pub use script::{AutoReply, Command, Line, NameId, Script};
pub use script_error::{LineRefusal, ScriptError};
pub use script_forms::MAX_SEQUENCES;
pub use targets::{parameters_kind, parameters_of, split_word, target_in};
