//! Definitions: structs, unions, enums, interfaces and constants, as they are written.

use crate::attributes::Attribute;
use crate::names::{Identifier, Number, Value};
use crate::types::Type;
use mj_base::Items;

/// A definition, and the attributes before it.
#[derive(Drop)]
pub struct Definition {
    pub attributes: Items<Attribute>,
    pub item: DefinitionItem,
}

/// What a definition is.
#[derive(Drop)]
pub enum DefinitionItem {
    Struct(Struct),
    Union(Union),
    Enum(Enum),
    Interface(Interface),
    Const(Const),
}

/// A struct: its name, and what stands in it, in order.
#[derive(Drop)]
pub struct Struct {
    pub name: Identifier,
    pub members: Items<StructMember>,
}

/// What stands in a struct, and the attributes before it.
#[derive(Drop)]
pub struct StructMember {
    pub attributes: Items<Attribute>,
    pub item: StructItem,
}

/// What stands in a struct by itself.
#[derive(Drop)]
pub enum StructItem {
    Const(Const),
    Enum(Enum),
    Field(Field),
}

/// A field of a struct.
#[derive(Drop)]
pub struct Field {
    pub kind: Type,
    pub name: Identifier,
    pub ordinal: Option<Number>,
    pub default: Option<Value>,
}

/// A union: its name and its fields, in order.
#[derive(Drop)]
pub struct Union {
    pub name: Identifier,
    pub fields: Items<UnionField>,
}

/// A field of a union, and the attributes before it.
#[derive(Drop)]
pub struct UnionField {
    pub attributes: Items<Attribute>,
    pub kind: Type,
    pub name: Identifier,
    pub ordinal: Option<Number>,
}

/// An enum: its name and its enumerators, in order.
#[derive(Drop)]
pub struct Enum {
    pub name: Identifier,
    pub enumerators: Items<Enumerator>,
}

/// An enumerator, with its value where one is written, and the attributes before it.
#[derive(Drop)]
pub struct Enumerator {
    pub attributes: Items<Attribute>,
    pub name: Identifier,
    pub value: Option<Value>,
}

/// An interface: its name, and what stands in it, in order.
#[derive(Drop)]
pub struct Interface {
    pub name: Identifier,
    pub members: Items<InterfaceMember>,
}

/// What stands in an interface, and the attributes before it.
#[derive(Drop)]
pub struct InterfaceMember {
    pub attributes: Items<Attribute>,
    pub item: InterfaceItem,
}

/// What stands in an interface by itself.
#[derive(Drop)]
pub enum InterfaceItem {
    Const(Const),
    Enum(Enum),
    Method(Method),
}

/// A method: the parameters of its request, and those of its response where it has one.
#[derive(Drop)]
pub struct Method {
    pub name: Identifier,
    pub ordinal: Option<Number>,
    pub request: Items<Parameter>,
    pub response: Option<Items<Parameter>>,
}

/// A parameter of a method, and the attributes before it.
#[derive(Drop)]
pub struct Parameter {
    pub attributes: Items<Attribute>,
    pub kind: Type,
    pub name: Identifier,
    pub ordinal: Option<Number>,
}

/// A constant: its type, its name and its value.
#[derive(Drop)]
pub struct Const {
    pub kind: Type,
    pub name: Identifier,
    pub value: Value,
}
