//! Files, as they are written.

use crate::attributes::Attribute;
use crate::definitions::Definition;
use crate::names::{Name, StringLiteral};
use mj_base::Items;

/// A file: its module statement where it has one, its imports, and its definitions in order.
#[derive(Drop)]
pub struct File {
    pub module_statement: Option<ModuleStatement>,
    pub imports: Items<Import>,
    pub definitions: Items<Definition>,
}

/// The module statement of a file, and the attributes before it.
#[derive(Drop)]
pub struct ModuleStatement {
    pub attributes: Items<Attribute>,
    pub name: Name,
}

/// An import by its path, and the attributes before it.
#[derive(Drop)]
pub struct Import {
    pub attributes: Items<Attribute>,
    pub path: StringLiteral,
}
