//! The order of Mojom files, in which each comes after those that it imports.
#![tactic(auto)]

mod circle;
mod error;
mod file_order;
mod given;
mod least;
mod marked;
mod name_table;
mod taking;

pub use error::ResolveError;
pub use file_order::{one_order, order};
