//! The names that Mojom files define, and what a name means where it stands.
#![tactic(auto)]

mod dot_counts;
mod dots;
mod entry;
mod enumerator_names;
mod file_names;
mod find;
mod fronts;
mod gather;
mod index;
mod indexed_files;
mod lengths;
mod module_nodes;
mod name_index;
mod owners;
mod place;
mod prefixes;
mod seat;
mod seen;
mod target;

pub use enumerator_names::{EnumNames, EnumeratorNames};
pub use file_names::{FileNames, Names};
pub use gather::names_of;
pub use import_order::{ResolveError, one_order, order};
pub use place::Place;
pub use target::{DefinitionSort, Target};
