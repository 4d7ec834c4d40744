//! The check of kinds: the tables of Mojom files, or what is refused of kinds, ordinals and versions.
#![tactic(auto)]

mod check;
mod error;

pub use check::check_kinds;
pub use draft_rows::Draft;
pub use error::KindError;
