//! What look-ups need.

use crate::file_names::FileNames;
use crate::name_index::NameIndex;

/// What look-ups need at a place: what has each full name in any file, how many dots full names have, the
/// nodes of the fronts of the file's module, the names of the file, and the node of the full name around the
/// place, where anything stands within that.
#[derive(Clone, Copy)]
pub struct Seat<'a> {
    pub index: &'a NameIndex,
    pub dots: &'a [usize],
    pub nodes: &'a [u32],
    pub here: &'a FileNames,
    pub node: Option<u32>,
}
