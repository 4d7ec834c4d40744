//! What a newer schema changes of a pair of rows so that it doesn't read what the older one writes, and which
//! pairs follow from it.
#![tactic(auto)]

mod enums;
mod fields;
mod following;
mod interfaces;
mod kinds;
mod method_table;
mod reasons;
mod rising;
mod unions;

pub use following::all_following;
pub use reasons::{find_interface, first_reason};
