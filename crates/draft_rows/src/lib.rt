//! The tables of Mojom files, where fields have no places yet.
#![tactic(auto)]

mod counts;
mod draft;
mod enum_row;
mod interface_row;
mod interface_version;
mod item_row;
mod kind_of;
mod literal;
mod member_row;
mod row_table;

pub use draft::{Draft, draft_of};
