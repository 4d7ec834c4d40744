//! Why the names of Mojom files are refused: those that stand twice, and those that mean nothing or no such thing.
#![tactic(auto)]

mod known_names;
mod lists;
mod members;
mod name_set;
mod repeats;
mod resolve_files;
mod uses;

pub use resolve_files::resolve;
pub use uses::Wanted;
