//! What Mojom files define, taken together: their definitions by number and by full name, the basic kinds,
//! and the refusals of names, constants and kinds.
#![tactic(auto)]

mod basic;
mod cause;
mod definition_view;
mod named_file;
mod names;
mod refusal;

pub use basic::Basic;
pub use cause::{Cause, CauseParts, NamedCause};
pub use definition_view::{DefinitionView, ItemView, definitions};
pub use named_file::NamedFile;
pub use names::dotted;
pub use refusal::{Refusal, best_is_first, keep};
