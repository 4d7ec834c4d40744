//! Files by their names.

use mj_base::Text;
use mojom_ast::File;

/// A file: the name by which imports name it, and its tree.
#[derive(Drop)]
pub struct NamedFile {
    pub name: Text,
    pub tree: File,
}
