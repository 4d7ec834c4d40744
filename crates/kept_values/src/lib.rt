//! Values as histories keep them: parameters and things in few bytes, what lies apart, and copies of values.
#![tactic(auto)]

mod boxed;
mod copy;
mod few_things;
mod kept_parameters;
mod parts;

pub use boxed::Boxed;
pub use copy::copy_value;
pub use few_things::FewThings;
pub use kept_parameters::KeptParameters;
