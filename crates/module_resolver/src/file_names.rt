//! The names of files.

use crate::enumerator_names::EnumeratorNames;
use crate::fronts::Fronts;
use crate::indexed_files::IndexedFiles;
use crate::seen::Seen;
use crate::target::DefinitionSort;
use mj_base::{FullName, Items};

/// The names of a file: the full names of its definitions and what these are, the full names of its
/// enumerators, the files in which its names are looked up, and the fronts of its module's name.
#[derive(Drop)]
pub struct FileNames {
    /// The full names of its definitions, by their numbers.
    pub definitions: Items<FullName>,
    /// What each definition is.
    pub sorts: Items<DefinitionSort>,
    /// The full names of its enumerators, by their numbers.
    pub enumerators: EnumeratorNames,
    /// The numbers of the file itself and of those that it imports, in resolved order.
    pub seen: Seen,
    /// The module's name and each shorter front of it, the longest first.
    pub fronts: Fronts,
}

/// The names of all files, in the order in which these were given.
#[derive(Drop)]
pub struct Names {
    pub files: IndexedFiles,
}
