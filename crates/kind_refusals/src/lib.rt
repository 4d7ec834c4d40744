//! What is refused of the kinds, the ordinals, the versions and the enums of Mojom files.
#![tactic(auto)]

mod enum_check;
mod file_check;
mod list_check;
mod list_sort;
mod meanings;
mod ordinals;
mod refuse;
mod type_check;
mod versions;

pub use file_check::kinds_refusal;
