//! The listing of files that nothing refuses.

use crate::fields::push_struct;
use crate::here::{Here, found_at};
use crate::orders::ordinals_of;
use crate::type_text::{push_found, push_type};
use mojom_ast::Attribute;
use mojom_files::{DefinitionView, ItemView, definitions};
use names_reference::{Given, ListSort, MemberList, lists_of, value};
use std::alloc::{AllocError, Global};

/// The word behind the name of what may hold more than it has.
fn extensible_word(attributes: &[Attribute]) -> &'static str {
    let mut attributes = attributes.iter();
    if attributes.any(|one| one.name.text.as_str() == "Extensible") {
        " extensible"
    } else {
        ""
    }
}

/// Adds the lines of a union.
fn push_union(
    alloc: Global,
    text: &mut String,
    here: Here<'_>,
    list: &MemberList<'_>,
    word: &str,
) -> Result<(), AllocError> {
    let full = list.full.as_str();
    write!(text, "union {full}{word}\n")?;
    let tags = ordinals_of(alloc, &list.members)?;
    for (member, tag) in list.members.iter().zip(&tags) {
        let name = member.name.text.as_str();
        write!(text, "  field {tag} {name} ")?;
        if let Some(kind) = member.kind {
            push_type(alloc, text, here, kind)?;
        }
        text.push_str("\n")?;
    }
    Ok(())
}

/// Adds the lines of an enum in the file of this number.
fn push_enum(
    alloc: Global,
    text: &mut String,
    here: Here<'_>,
    list: &MemberList<'_>,
    word: &str,
) -> Result<(), AllocError> {
    let full = list.full.as_str();
    write!(text, "enum {full}{word}\n")?;
    for (number, thing) in here.given.things.iter().enumerate() {
        let outer = thing.enclosing.as_ref().map_or("", |outer| outer.as_str());
        if thing.is_enumerator && thing.file == here.file && outer == full {
            let name = thing.name.text.as_str();
            write!(text, "  value {name} ")?;
            push_found(text, value(alloc, here.given, number)?)?;
            text.push_str("\n")?;
        }
    }
    Ok(())
}

/// Adds the lines of an interface.
fn push_interface(
    alloc: Global,
    text: &mut String,
    list: &MemberList<'_>,
) -> Result<(), AllocError> {
    let full = list.full.as_str();
    write!(text, "interface {full}\n")?;
    let ordinals = ordinals_of(alloc, &list.members)?;
    for (member, ordinal) in list.members.iter().zip(&ordinals) {
        let name = member.name.text.as_str();
        write!(text, "  method {ordinal} {name}\n")?;
    }
    Ok(())
}

/// Adds the line of a constant.
fn push_const(
    alloc: Global,
    text: &mut String,
    here: Here<'_>,
    definition: &DefinitionView<'_>,
) -> Result<(), AllocError> {
    let ItemView::Const(item) = definition.item() else {
        return Ok(());
    };
    let name = definition.full(alloc)?;
    let full = name.as_str();
    write!(text, "const {full} ")?;
    push_type(alloc, text, here, item.kind.node())?;
    text.push_str(" ")?;
    push_found(text, found_at(alloc, here, &item.value)?)?;
    text.push_str("\n")
}

/// Adds the lines of a list, with the word behind its definition's name.
fn push_list(
    alloc: Global,
    text: &mut String,
    here: Here<'_>,
    list: &MemberList<'_>,
    word: &str,
) -> Result<(), AllocError> {
    match list.sort {
        ListSort::Fields | ListSort::Parameters => push_struct(alloc, text, here, list),
        ListSort::UnionFields => push_union(alloc, text, here, list, word),
        ListSort::Enumerators => push_enum(alloc, text, here, list, word),
        ListSort::Methods => push_interface(alloc, text, list),
    }
}

/// Adds the lines of a definition, and behind an interface those of its methods' structs.
fn push_definition(
    alloc: Global,
    text: &mut String,
    outside: Here<'_>,
    definition: &DefinitionView<'_>,
) -> Result<(), AllocError> {
    push_const(alloc, text, outside, definition)?;
    let full = Some(definition.full(alloc)?);
    let inside = Here {
        given: outside.given,
        file: outside.file,
        enclosing: &full,
    };
    let word = extensible_word(definition.attributes());
    for list in &lists_of(alloc, definition)? {
        push_list(alloc, text, inside, list, word)?;
    }
    Ok(())
}

/// The listing of files, along their resolved order.
pub fn listing(alloc: Global, given: Given<'_>) -> Result<String, AllocError> {
    let mut text = String::new(alloc);
    for number in given.order {
        let Some(named) = given.files.get(*number) else {
            continue;
        };
        for definition in &definitions(alloc, &named.tree)? {
            let enclosing = definition.enclosing(alloc)?;
            let outside = Here {
                given,
                file: *number,
                enclosing: &enclosing,
            };
            push_definition(alloc, &mut text, outside, definition)?;
        }
    }
    Ok(text)
}
