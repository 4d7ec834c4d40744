//! Where something is tested.

use crate::consts::Consts;
use module_resolver::Names;

/// Where something is tested: what constants mean, the names of all files, and the number of the
/// file.
#[derive(Clone, Copy)]
pub struct Here<'a> {
    pub consts: &'a Consts,
    pub names: &'a Names,
    pub file: u32,
}
