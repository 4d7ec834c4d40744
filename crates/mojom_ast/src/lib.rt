//! The tokens and the trees of a Mojom file, and the grammar.
#![tactic(auto)]

mod attributes;
mod class;
pub mod classes;
mod definitions;
mod fault;
mod file;
mod names;
mod token;
mod types;

pub use attributes::Attribute;
pub use definitions::{
    Const, Definition, DefinitionItem, Enum, Enumerator, Field, Interface, InterfaceItem,
    InterfaceMember, Method, Parameter, Struct, StructItem, StructMember, Union, UnionField,
};
pub use fault::Fault;
pub use file::{File, Import, ModuleStatement};
pub use names::{Identifier, Name, Number, StringLiteral, Value};
pub use token::{Keyword, Sort, Symbol, Token};
pub use types::{BaseNode, HandleSort, PendingSort, Type, TypeNode};
