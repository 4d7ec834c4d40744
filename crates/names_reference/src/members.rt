//! The lists of members of a definition.

use mj_base::{Text, within};
use mojom_ast::{
    Attribute, Enum, Identifier, Interface, InterfaceItem, Method, Number, Parameter, Struct,
    StructItem, TypeNode, Union, Value,
};
use mojom_files::{DefinitionView, ItemView};
use std::alloc::{AllocError, Global};

/// What a list has.
#[derive(Clone, Copy)]
pub enum ListSort {
    Fields,
    UnionFields,
    Enumerators,
    Methods,
    Parameters,
}

/// A member of a list, whatever it is.
#[derive(Clone, Copy)]
pub struct Member<'a> {
    pub name: &'a Identifier,
    pub attributes: &'a [Attribute],
    /// Its type: enumerators and methods have none.
    pub kind: Option<&'a TypeNode>,
    pub ordinal: Option<Number>,
    /// Its default, or the value of an enumerator, where one is written.
    pub default: Option<&'a Value>,
}

/// A list of members.
#[derive(Drop)]
pub struct MemberList<'a> {
    pub sort: ListSort,
    /// The identifier of the definition, and of the method where they are its parameters.
    pub head: &'a Identifier,
    /// The full name of the definition, or of the struct of the method.
    pub full: Text,
    pub members: Vec<Member<'a>>,
}

/// The fields of a struct.
fn fields(alloc: Global, item: &Struct) -> Result<Vec<Member<'_>>, AllocError> {
    let mut members = Vec::new(alloc);
    for member in item.members.as_slice() {
        if let StructItem::Field(field) = &member.item {
            members.push(Member {
                name: &field.name,
                attributes: member.attributes.as_slice(),
                kind: Some(field.kind.node()),
                ordinal: field.ordinal,
                default: field.default.as_ref(),
            })?;
        }
    }
    Ok(members)
}

/// The fields of a union.
fn union_fields(alloc: Global, item: &Union) -> Result<Vec<Member<'_>>, AllocError> {
    let mut members = Vec::new(alloc);
    for field in item.fields.as_slice() {
        members.push(Member {
            name: &field.name,
            attributes: field.attributes.as_slice(),
            kind: Some(field.kind.node()),
            ordinal: field.ordinal,
            default: None,
        })?;
    }
    Ok(members)
}

/// The enumerators of an enum.
fn enumerators(alloc: Global, item: &Enum) -> Result<Vec<Member<'_>>, AllocError> {
    let mut members = Vec::new(alloc);
    for one in item.enumerators.as_slice() {
        members.push(Member {
            name: &one.name,
            attributes: one.attributes.as_slice(),
            kind: None,
            ordinal: None,
            default: one.value.as_ref(),
        })?;
    }
    Ok(members)
}

/// The methods of an interface.
fn methods(alloc: Global, item: &Interface) -> Result<Vec<Member<'_>>, AllocError> {
    let mut members = Vec::new(alloc);
    for member in item.members.as_slice() {
        if let InterfaceItem::Method(method) = &member.item {
            members.push(Member {
                name: &method.name,
                attributes: member.attributes.as_slice(),
                kind: None,
                ordinal: method.ordinal,
                default: None,
            })?;
        }
    }
    Ok(members)
}

/// The members that parameters are.
fn parameters<'a>(
    alloc: Global,
    parameters: &'a [Parameter],
) -> Result<Vec<Member<'a>>, AllocError> {
    let mut members = Vec::new(alloc);
    for parameter in parameters {
        members.push(Member {
            name: &parameter.name,
            attributes: parameter.attributes.as_slice(),
            kind: Some(parameter.kind.node()),
            ordinal: parameter.ordinal,
            default: None,
        })?;
    }
    Ok(members)
}

/// Adds a list of parameters of a method, by the full name of its interface and the word for its struct.
fn add_parameters<'a>(
    alloc: Global,
    lists: &mut Vec<MemberList<'a>>,
    interface: &str,
    method: &'a Method,
    word: &str,
    list: &'a [Parameter],
) -> Result<(), AllocError> {
    let full = within(alloc, interface, method.name.text.as_str())?;
    let full = within(alloc, full.as_str(), word)?;
    let members = parameters(alloc, list)?;
    lists.push(MemberList {
        sort: ListSort::Parameters,
        head: &method.name,
        full,
        members,
    })?;
    Ok(())
}

/// Adds the lists of the methods of an interface: of each its request, and its response where it has one.
fn add_methods<'a>(
    alloc: Global,
    lists: &mut Vec<MemberList<'a>>,
    interface: &str,
    item: &'a Interface,
) -> Result<(), AllocError> {
    for member in item.members.as_slice() {
        if let InterfaceItem::Method(method) = &member.item {
            let request = method.request.as_slice();
            add_parameters(alloc, lists, interface, method, "request", request)?;
            if let Some(response) = &method.response {
                let response = response.as_slice();
                add_parameters(alloc, lists, interface, method, "response", response)?;
            }
        }
    }
    Ok(())
}

/// What the list of a definition itself has; a constant has none.
fn own_sort(item: ItemView<'_>) -> Option<ListSort> {
    match item {
        ItemView::Struct(_) => Some(ListSort::Fields),
        ItemView::Union(_) => Some(ListSort::UnionFields),
        ItemView::Enum(_) => Some(ListSort::Enumerators),
        ItemView::Interface(_) => Some(ListSort::Methods),
        ItemView::Const(_) => None,
    }
}

/// The members of the list of a definition itself.
fn own_members<'a>(alloc: Global, item: ItemView<'a>) -> Result<Vec<Member<'a>>, AllocError> {
    match item {
        ItemView::Struct(item) => fields(alloc, item),
        ItemView::Union(item) => union_fields(alloc, item),
        ItemView::Enum(item) => enumerators(alloc, item),
        ItemView::Interface(item) => methods(alloc, item),
        ItemView::Const(_) => Ok(Vec::new(alloc)),
    }
}

/// Adds the list of a definition itself.
fn add_own<'a>(
    alloc: Global,
    lists: &mut Vec<MemberList<'a>>,
    definition: &DefinitionView<'a>,
) -> Result<(), AllocError> {
    let Some(sort) = own_sort(definition.item()) else {
        return Ok(());
    };
    let full = definition.full(alloc)?;
    let members = own_members(alloc, definition.item())?;
    lists.push(MemberList {
        sort,
        head: definition.name(),
        full,
        members,
    })?;
    Ok(())
}

/// The lists of members of a definition: its own, and behind that of an interface those of its methods.
pub fn lists_of<'a>(
    alloc: Global,
    definition: &DefinitionView<'a>,
) -> Result<Vec<MemberList<'a>>, AllocError> {
    let mut lists = Vec::new(alloc);
    add_own(alloc, &mut lists, definition)?;
    if let ItemView::Interface(item) = definition.item() {
        let full = definition.full(alloc)?;
        add_methods(alloc, &mut lists, full.as_str(), item)?;
    }
    Ok(lists)
}
