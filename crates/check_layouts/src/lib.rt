//! Compares layouts with those that are wanted: the layout that packing gives and the one that the
//! definition gives, computed bit by bit. A line of the file is `KINDS | VERSIONS | PLACES | ROWS`.
#![tactic(auto)]

mod files;
mod kinds;
mod layout;

pub use files::run;
