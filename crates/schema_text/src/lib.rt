//! The text of a schema.
#![tactic(auto)]

mod definitions;
mod fields;
mod kinds;
mod rows;
mod structs;
mod words;

pub use definitions::listing;
