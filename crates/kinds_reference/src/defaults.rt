//! The defaults of fields and of enums, which the listing lacks.

use crate::here::{Here, found_at};
use crate::orders::{ordinals_of, places_along};
use mojom_files::definitions;
use names_reference::{Found, Given, ListSort, Member, MemberList, lists_of, value};
use std::alloc::{AllocError, Global};
use std::str;

/// Adds a value, and the end of its line: a string as it is, in quotes.
fn push_plain(text: &mut String, found: Found<'_>) -> Result<(), AllocError> {
    match found {
        Found::Text(bytes) => {
            let plain = str::from_utf8(bytes).unwrap_or("?");
            write!(text, "\"{plain}\"\n")
        }
        Found::Bool(value) => write!(text, "{value}\n"),
        Found::Number(number) => write!(text, "{number}\n"),
        Found::Float | Found::Circular | Found::Nothing => text.push_str("?\n"),
    }
}

/// Adds the default of a field, where it has one.
fn push_field(
    alloc: Global,
    text: &mut String,
    here: Here<'_>,
    list: &MemberList<'_>,
    member: &Member<'_>,
) -> Result<(), AllocError> {
    let Some(written) = member.default else {
        return Ok(());
    };
    let full = list.full.as_str();
    let name = member.name.text.as_str();
    write!(text, "{full}.{name} = ")?;
    push_plain(text, found_at(alloc, here, written)?)
}

/// Adds the defaults of a struct's fields, along their ordinals.
fn push_fields(
    alloc: Global,
    text: &mut String,
    here: Here<'_>,
    list: &MemberList<'_>,
) -> Result<(), AllocError> {
    let along = places_along(alloc, &ordinals_of(alloc, &list.members)?)?;
    for place in &along {
        if let Some(member) = list.members.get(*place) {
            push_field(alloc, text, here, list, member)?;
        }
    }
    Ok(())
}

/// The identifier of the enumerator of a list that is the default, where one is.
fn default_name<'a>(list: &'a MemberList<'_>) -> Option<&'a str> {
    for member in &list.members {
        let mut attributes = member.attributes.iter();
        if attributes.any(|one| one.name.text.as_str() == "Default") {
            return Some(member.name.text.as_str());
        }
    }
    None
}

/// Adds the number of the default of an enum, where it has one.
fn push_enum(
    alloc: Global,
    text: &mut String,
    here: Here<'_>,
    list: &MemberList<'_>,
) -> Result<(), AllocError> {
    let Some(name) = default_name(list) else {
        return Ok(());
    };
    let full = list.full.as_str();
    for (number, thing) in here.given.things.iter().enumerate() {
        let outer = thing.enclosing.as_ref().map_or("", |outer| outer.as_str());
        let is_of_enum = thing.is_enumerator && thing.file == here.file && outer == full;
        if is_of_enum && thing.name.text.as_str() == name {
            write!(text, "{full} = ")?;
            push_plain(text, value(alloc, here.given, number)?)?;
        }
    }
    Ok(())
}

/// Adds the defaults of the definitions of the file of this number.
fn push_file(
    alloc: Global,
    text: &mut String,
    given: Given<'_>,
    file: usize,
) -> Result<(), AllocError> {
    let Some(named) = given.files.get(file) else {
        return Ok(());
    };
    for definition in &definitions(alloc, &named.tree)? {
        let full = Some(definition.full(alloc)?);
        let here = Here {
            given,
            file,
            enclosing: &full,
        };
        for list in &lists_of(alloc, definition)? {
            match list.sort {
                ListSort::Fields => push_fields(alloc, text, here, list)?,
                ListSort::Enumerators => push_enum(alloc, text, here, list)?,
                _ => {}
            }
        }
    }
    Ok(())
}

/// The defaults of files that nothing refuses, a line each: in the order of the listing, those of fields by the full
/// name of the struct and the field's own name, those of enums by the enum's full name.
pub fn defaults(alloc: Global, given: Given<'_>) -> Result<String, AllocError> {
    let mut text = String::new(alloc);
    for file in given.order {
        push_file(alloc, &mut text, given, *file)?;
    }
    Ok(text)
}
