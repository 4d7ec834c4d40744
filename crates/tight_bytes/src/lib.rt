//! The tight bytes of values, written in one pass.
#![tactic(auto)]

mod bytes;
mod emit;
mod put;
mod rows;

pub use emit::emit_value;
pub use put::is_value;
pub use rows::member_kind;
