//! What the constants and enumerators of Mojom files are, and the refusals of constants and numbers.
#![tactic(auto)]

mod consts;
mod defaults;
mod definitions;
mod error;
mod file_things;
mod here;
mod kinds;
mod laws;
mod lengths;
mod literal;
mod members;
mod ordinals;
mod origins;
mod places;
mod stage;
mod things;
mod trees;
mod values;
mod versions;

pub use consts::Consts;
pub use error::ConstError;
pub use file_things::FileThings;
pub use laws::{nothing_refused, one_evaluation};
pub use stage::evaluate;
