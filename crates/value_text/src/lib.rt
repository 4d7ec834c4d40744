//! Values as text.
#![tactic(auto)]

mod characters;
mod entries;
pub mod kinds;
mod laws;
mod members;
mod numbers;
mod printing;
mod reading;
mod rows;
mod scalars;
mod text_error;
mod values;
mod writing;

pub use laws::{one_text, texts_are_read_back};
pub use numbers::{index, number};
pub use printing::write_value;
pub use reading::read_value;
pub use text_error::TextError;
