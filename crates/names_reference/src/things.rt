//! The definitions and enumerators of files.

use mj_base::{Text, within};
use mojom_ast::{BaseNode, Enumerator, Identifier, Name, Value};
use mojom_files::{Basic, DefinitionView, ItemView, NamedFile, definitions};
use std::alloc::{AllocError, Global};

/// Where the value of a thing comes from.
#[derive(Clone, Copy)]
pub enum Origin<'a> {
    Written(&'a Value),
    /// It is a constant of `float` or `double`, whatever is written.
    Float,
    /// It is the first enumerator of its enum, and none is written.
    First,
    /// It is another enumerator, and none is written.
    Next,
    /// It is no constant and no enumerator.
    Nothing,
}

/// A definition or an enumerator.
#[derive(Drop)]
pub struct Thing<'a> {
    /// The number of its file.
    pub file: usize,
    pub is_enumerator: bool,
    /// Its number among the definitions, or the enumerators, of its file.
    pub number: usize,
    pub full: Text,
    pub name: &'a Identifier,
    /// What it is, or the enum of an enumerator.
    pub item: ItemView<'a>,
    /// The full name of the definition around its value, where there is one.
    pub enclosing: Option<Text>,
    pub origin: Origin<'a>,
}

/// The basic kind of this name.
pub fn basic_of(name: &Name) -> Option<Basic> {
    match name.parts.as_slice() {
        [part] => Basic::of_name(part.text.as_str()),
        _ => None,
    }
}

/// Where the value of a definition comes from.
fn origin_of_item(item: ItemView<'_>) -> Origin<'_> {
    let ItemView::Const(item) = item else {
        return Origin::Nothing;
    };
    match &item.kind.node().base {
        BaseNode::Name(name) if matches!(basic_of(name), Some(Basic::Float | Basic::Double)) => {
            Origin::Float
        }
        _ => Origin::Written(&item.value),
    }
}

/// Where the value of the enumerator at this place of its enum comes from.
fn origin_at(place: usize, one: &Enumerator) -> Origin<'_> {
    match &one.value {
        Some(value) => Origin::Written(value),
        None if place == 0 => Origin::First,
        None => Origin::Next,
    }
}

/// Adds the enumerators of a definition in the file of this number, the first of which has this number.
fn add_enumerators<'a>(
    alloc: Global,
    things: &mut Vec<Thing<'a>>,
    file: usize,
    first: usize,
    definition: &DefinitionView<'a>,
) -> Result<(), AllocError> {
    let ItemView::Enum(item) = definition.item() else {
        return Ok(());
    };
    let full = definition.full(alloc)?;
    for (place, one) in item.enumerators.as_slice().iter().enumerate() {
        things.push(Thing {
            file,
            is_enumerator: true,
            number: first.saturating_add(place),
            full: within(alloc, full.as_str(), one.name.text.as_str())?,
            name: &one.name,
            item: definition.item(),
            enclosing: Some(definition.full(alloc)?),
            origin: origin_at(place, one),
        })?;
    }
    Ok(())
}

/// Adds the definitions of the file of this number.
fn add_definitions<'a>(
    alloc: Global,
    things: &mut Vec<Thing<'a>>,
    file: usize,
    definitions: &[DefinitionView<'a>],
) -> Result<(), AllocError> {
    for (number, one) in definitions.iter().enumerate() {
        things.push(Thing {
            file,
            is_enumerator: false,
            number,
            full: one.full(alloc)?,
            name: one.name(),
            item: one.item(),
            enclosing: one.enclosing(alloc)?,
            origin: origin_of_item(one.item()),
        })?;
    }
    Ok(())
}

/// Adds the things of the file of this number: its definitions, and then its enumerators.
fn add_file<'a>(
    alloc: Global,
    things: &mut Vec<Thing<'a>>,
    file: usize,
    named: &'a NamedFile,
) -> Result<(), AllocError> {
    let found = definitions(alloc, &named.tree)?;
    add_definitions(alloc, things, file, found.as_slice())?;
    let before = things.len();
    for one in &found {
        let first = things.len().saturating_sub(before);
        add_enumerators(alloc, things, file, first, one)?;
    }
    Ok(())
}

/// The things of files, in the order given.
pub fn things_of<'a>(alloc: Global, files: &'a [NamedFile]) -> Result<Vec<Thing<'a>>, AllocError> {
    let mut things = Vec::new(alloc);
    for (number, file) in files.iter().enumerate() {
        add_file(alloc, &mut things, number, file)?;
    }
    Ok(things)
}
