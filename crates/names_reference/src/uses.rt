//! The names that are used.

use crate::look_up::Given;
use crate::members::{Member, lists_of};
use crate::things::basic_of;
use mj_base::Text;
use mojom_ast::{Attribute, BaseNode, Name, Value};
use mojom_files::{DefinitionView, ItemView, NamedFile, definitions};
use std::alloc::{AllocError, Global};

/// What a name has to mean where it is used.
#[derive(Clone, Copy)]
pub enum Wanted {
    /// A struct, a union or an enum.
    Type,
    Interface,
    /// A constant or an enumerator.
    Value,
}

/// A name that is used: the number of its file, the full name of the definition around its place where
/// there is one, the name, and what it has to mean.
#[derive(Drop)]
pub struct Use<'a> {
    pub file: usize,
    pub enclosing: Option<Text>,
    pub name: &'a Name,
    pub wanted: Wanted,
}

/// Names, each with what it has to mean.
type Names<'a> = Vec<(&'a Name, Wanted)>;

/// Adds the name that a value is.
fn add_value<'a>(names: &mut Names<'a>, value: Option<&'a Value>) -> Result<(), AllocError> {
    if let Some(Value::Name(name)) = value {
        names.push((name, Wanted::Value))?;
    }
    Ok(())
}

/// Adds the names of a type, but for those of basic kinds.
#[cycle(types)]
fn add_type<'a>(names: &mut Names<'a>, base: &'a BaseNode) -> Result<(), AllocError> {
    match base {
        BaseNode::Name(name) if basic_of(name).is_some() => Ok(()),
        BaseNode::Name(name) => Ok(names.push((name, Wanted::Type))?),
        BaseNode::Array { of, .. } => add_type(names, &of.base),
        BaseNode::Map { key, value } => {
            add_type(names, &key.base)?;
            add_type(names, &value.base)
        }
        BaseNode::Handle(_) => Ok(()),
        BaseNode::Pending { interface, .. } => Ok(names.push((interface, Wanted::Interface))?),
    }
}

/// Adds the names that are values of `MinVersion`.
fn add_attributes<'a>(
    names: &mut Names<'a>,
    attributes: &'a [Attribute],
) -> Result<(), AllocError> {
    for attribute in attributes {
        if attribute.name.text.as_str() == "MinVersion" {
            add_value(names, attribute.value.as_ref())?;
        }
    }
    Ok(())
}

/// Adds the names of a member: in its attributes, its type and its value.
fn add_member<'a>(names: &mut Names<'a>, member: Member<'a>) -> Result<(), AllocError> {
    add_attributes(names, member.attributes)?;
    if let Some(kind) = member.kind {
        add_type(names, &kind.base)?;
    }
    add_value(names, member.default)
}

/// Adds the names of the members of a list.
fn add_members<'a>(names: &mut Names<'a>, members: &[Member<'a>]) -> Result<(), AllocError> {
    for member in members {
        add_member(names, *member)?;
    }
    Ok(())
}

/// Adds the names that stand in a definition which encloses them. Constants and enums in it are
/// definitions of their own.
fn add_inside<'a>(
    alloc: Global,
    names: &mut Names<'a>,
    definition: &DefinitionView<'a>,
) -> Result<(), AllocError> {
    for list in &lists_of(alloc, definition)? {
        add_members(names, &list.members)?;
    }
    Ok(())
}

/// Adds the uses of a definition: what encloses it encloses the attributes before it, and what stands in a
/// constant.
fn add_uses<'a>(
    alloc: Global,
    uses: &mut Vec<Use<'a>>,
    file: usize,
    definition: &DefinitionView<'a>,
) -> Result<(), AllocError> {
    let mut names = Vec::new(alloc);
    add_attributes(&mut names, definition.attributes())?;
    if let ItemView::Const(item) = definition.item() {
        add_type(&mut names, &item.kind.node().base)?;
        add_value(&mut names, Some(&item.value))?;
    }
    let outside = names.len();
    add_inside(alloc, &mut names, definition)?;
    for (number, (name, wanted)) in names.iter().enumerate() {
        let enclosing = if number < outside {
            definition.enclosing(alloc)?
        } else {
            Some(definition.full(alloc)?)
        };
        uses.push(Use {
            file,
            enclosing,
            name,
            wanted: *wanted,
        })?;
    }
    Ok(())
}

/// Adds the uses of all definitions of the file of this number.
fn add_file<'a>(
    alloc: Global,
    uses: &mut Vec<Use<'a>>,
    file: usize,
    named: &'a NamedFile,
) -> Result<(), AllocError> {
    for definition in definitions(alloc, &named.tree)?.as_slice() {
        add_uses(alloc, uses, file, definition)?;
    }
    Ok(())
}

/// The uses of the definitions of the file of this number.
pub fn uses_in<'a>(
    alloc: Global,
    given: Given<'a>,
    file: usize,
) -> Result<Vec<Use<'a>>, AllocError> {
    let mut uses = Vec::new(alloc);
    if let Some(named) = given.files.get(file) {
        add_file(alloc, &mut uses, file, named)?;
    }
    Ok(uses)
}

/// The uses of all definitions, along the resolved order of their files.
pub fn uses_of<'a>(alloc: Global, given: Given<'a>) -> Result<Vec<Use<'a>>, AllocError> {
    let mut uses = Vec::new(alloc);
    for number in given.order {
        if let Some(file) = given.files.get(*number) {
            add_file(alloc, &mut uses, *number, file)?;
        }
    }
    Ok(uses)
}
