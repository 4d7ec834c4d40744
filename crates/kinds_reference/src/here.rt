//! Where something stands, and what types and values mean there.

use mj_base::Text;
use mojom_ast::{Attribute, BaseNode, Name, Value};
use mojom_files::{Basic, ItemView};
use names_reference::{Found, Given, basic_of, meaning, value_of};
use std::alloc::{AllocError, Global};

/// A place: the number of its file, and the full name of the definition around it, where there is one.
#[derive(Clone, Copy)]
pub struct Here<'a> {
    pub given: Given<'a>,
    pub file: usize,
    pub enclosing: &'a Option<Text>,
}

/// What a type is.
#[derive(Clone, Copy)]
pub enum Sort {
    Basic(Basic),
    /// The enum of this number among the things.
    Enum(usize),
    Struct,
    Union,
    Array,
    Map,
    Handle,
    Pending,
    /// A name that means no type.
    Nothing,
}

/// Whether a type is a bool, an integer or an enum.
pub fn is_plain(sort: Sort) -> bool {
    match sort {
        Sort::Basic(basic) => !matches!(basic, Basic::Text | Basic::Float | Basic::Double),
        Sort::Enum(_) => true,
        _ => false,
    }
}

/// What a name means as a type.
fn sort_of_name(alloc: Global, here: Here<'_>, name: &Name) -> Result<Sort, AllocError> {
    if let Some(basic) = basic_of(name) {
        return Ok(Sort::Basic(basic));
    }
    let Some(number) = meaning(alloc, here.given, here.file, here.enclosing, name)? else {
        return Ok(Sort::Nothing);
    };
    let Some(thing) = here.given.things.get(number) else {
        return Ok(Sort::Nothing);
    };
    Ok(match thing.item {
        ItemView::Struct(_) => Sort::Struct,
        ItemView::Union(_) => Sort::Union,
        ItemView::Enum(_) if !thing.is_enumerator => Sort::Enum(number),
        _ => Sort::Nothing,
    })
}

/// What a type is.
pub fn sort_of(alloc: Global, here: Here<'_>, base: &BaseNode) -> Result<Sort, AllocError> {
    match base {
        BaseNode::Name(name) => sort_of_name(alloc, here, name),
        BaseNode::Array { .. } => Ok(Sort::Array),
        BaseNode::Map { .. } => Ok(Sort::Map),
        BaseNode::Handle(_) => Ok(Sort::Handle),
        BaseNode::Pending { .. } => Ok(Sort::Pending),
    }
}

/// What a value is.
pub fn found_at<'a>(
    alloc: Global,
    here: Here<'a>,
    written: &'a Value,
) -> Result<Found<'a>, AllocError> {
    value_of(alloc, here.given, here.file, here.enclosing, written)
}

/// Whether a value is the name of an enumerator of the enum of this number among the things.
pub fn is_enumerator_of(
    alloc: Global,
    here: Here<'_>,
    number: usize,
    written: &Value,
) -> Result<bool, AllocError> {
    let Value::Name(name) = written else {
        return Ok(false);
    };
    let things = here.given.things;
    let Some(meant) = meaning(alloc, here.given, here.file, here.enclosing, name)? else {
        return Ok(false);
    };
    let (Some(meant), Some(owner)) = (things.get(meant), things.get(number)) else {
        return Ok(false);
    };
    let Some(outer) = &meant.enclosing else {
        return Ok(false);
    };
    let is_same = meant.file == owner.file && outer.as_str() == owner.full.as_str();
    Ok(meant.is_enumerator && is_same)
}

/// The version since which there is what these attributes stand before: the number of the first `MinVersion`, or 0.
pub fn version_at(
    alloc: Global,
    here: Here<'_>,
    attributes: &[Attribute],
) -> Result<i128, AllocError> {
    let mut named = attributes.iter();
    let Some(first) = named.find(|one| one.name.text.as_str() == "MinVersion") else {
        return Ok(0);
    };
    let Some(written) = &first.value else {
        return Ok(0);
    };
    match found_at(alloc, here, written)? {
        Found::Number(number) => Ok(number),
        _ => Ok(0),
    }
}
