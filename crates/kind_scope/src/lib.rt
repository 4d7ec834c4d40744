//! Where names stand, what types' names mean there, and the members of lists, with their ordinals and versions.
#![tactic(auto)]

mod along;
mod attributes;
mod meant;
mod member;
mod scope;
mod version;

pub use along::along_ordinals;
pub use attributes::{has_attribute, is_default};
pub use meant::Meant;
pub use member::{
    MemberView, NumberedView, fields, held, methods, numbered, ordinal_at, parameters, union_fields,
};
pub use scope::{ScopeView, known_in, meant_in};
pub use version::version_of;
