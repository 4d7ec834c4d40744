//! The text of a message that was checked, written from its bytes, with no value between.
#![tactic(auto)]

mod leaves;
mod printing;

pub use printing::write_view;
