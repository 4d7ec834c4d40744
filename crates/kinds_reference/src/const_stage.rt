//! Why a file is refused for its constants and numbers.

use crate::here::Here;
use crate::orders::ordinals_of;
use crate::parts::{Stand, parts_of};
use crate::value_reasons::{add_const, add_default, add_found, add_range, add_versions, start_of};
use mojom_ast::{BaseNode, TypeNode};
use mojom_files::{Basic, DefinitionView, ItemView, definitions};
use names_reference::{
    Found, Given, ListSort, Member, MemberList, Origin, Reason, Thing, Word, add_reason, lists_of,
    value,
};
use std::alloc::{AllocError, Global};

/// Adds a constant or an enumerator that needs itself, and what is wrong with an enumerator's value.
fn add_thing(
    alloc: Global,
    reasons: &mut Vec<Reason>,
    thing: &Thing<'_>,
    found: Found<'_>,
) -> Result<(), AllocError> {
    let name = thing.name;
    if matches!(found, Found::Circular) {
        let text = name.text.as_str();
        return add_reason(alloc, reasons, name.span.start, Word::CircularConst, text);
    }
    if !thing.is_enumerator {
        return Ok(());
    }
    let at = match thing.origin {
        Origin::Written(written) => start_of(written),
        _ => name.span.start,
    };
    add_found(alloc, reasons, Basic::Int32, name, at, found)
}

/// Adds what is wrong with the constants and enumerators of a file by themselves.
fn add_things(
    alloc: Global,
    reasons: &mut Vec<Reason>,
    given: Given<'_>,
    file: usize,
) -> Result<(), AllocError> {
    for (number, thing) in given.things.iter().enumerate() {
        if thing.file == file {
            let found = value(alloc, given, number)?;
            add_thing(alloc, reasons, thing, found)?;
        }
    }
    Ok(())
}

/// Adds the lengths in a type that are none.
fn add_lengths(
    alloc: Global,
    reasons: &mut Vec<Reason>,
    kind: &TypeNode,
) -> Result<(), AllocError> {
    for part in &parts_of(alloc, kind, Stand::Other)? {
        if let BaseNode::Array {
            count: Some(count),
            ..
        } = &part.node.base
        {
            let number = i128::from(count.value);
            add_range(alloc, reasons, count.span.start, Basic::Uint32, number)?;
        }
    }
    Ok(())
}

/// Adds the ordinals of a list that are none.
fn add_ordinals(
    alloc: Global,
    reasons: &mut Vec<Reason>,
    members: &[Member<'_>],
) -> Result<(), AllocError> {
    let ordinals = ordinals_of(alloc, members)?;
    for (member, ordinal) in members.iter().zip(&ordinals) {
        let at = match member.ordinal {
            Some(written) => written.span.start,
            None => member.name.span.start,
        };
        add_range(alloc, reasons, at, Basic::Uint32, *ordinal)?;
    }
    Ok(())
}

/// Adds what is wrong with the numbers and the default of a member.
fn add_member(
    alloc: Global,
    reasons: &mut Vec<Reason>,
    here: Here<'_>,
    member: &Member<'_>,
) -> Result<(), AllocError> {
    add_versions(alloc, reasons, here, member.name, member.attributes)?;
    let Some(kind) = member.kind else {
        return Ok(());
    };
    add_lengths(alloc, reasons, kind)?;
    match member.default {
        Some(written) => add_default(alloc, reasons, here, member.name, kind, written),
        None => Ok(()),
    }
}

/// Adds what is wrong with the numbers and defaults of a list.
fn add_list(
    alloc: Global,
    reasons: &mut Vec<Reason>,
    here: Here<'_>,
    list: &MemberList<'_>,
) -> Result<(), AllocError> {
    if !matches!(list.sort, ListSort::Enumerators) {
        add_ordinals(alloc, reasons, &list.members)?;
    }
    for member in &list.members {
        add_member(alloc, reasons, here, member)?;
    }
    Ok(())
}

/// Adds what is wrong with what stands outside a definition: the attributes before it, and all of a constant.
fn add_outside(
    alloc: Global,
    reasons: &mut Vec<Reason>,
    here: Here<'_>,
    definition: &DefinitionView<'_>,
) -> Result<(), AllocError> {
    let attributes = definition.attributes();
    add_versions(alloc, reasons, here, definition.name(), attributes)?;
    match definition.item() {
        ItemView::Const(item) => {
            add_lengths(alloc, reasons, item.kind.node())?;
            add_const(alloc, reasons, here, item)
        }
        _ => Ok(()),
    }
}

/// Adds what is wrong with the lists of a definition.
fn add_lists(
    alloc: Global,
    reasons: &mut Vec<Reason>,
    given: Given<'_>,
    file: usize,
    definition: &DefinitionView<'_>,
) -> Result<(), AllocError> {
    let full = Some(definition.full(alloc)?);
    let here = Here {
        given,
        file,
        enclosing: &full,
    };
    for list in &lists_of(alloc, definition)? {
        add_list(alloc, reasons, here, list)?;
    }
    Ok(())
}

/// Adds what is wrong with a definition, and with what stands in it.
fn add_definition(
    alloc: Global,
    reasons: &mut Vec<Reason>,
    given: Given<'_>,
    file: usize,
    definition: &DefinitionView<'_>,
) -> Result<(), AllocError> {
    let enclosing = definition.enclosing(alloc)?;
    let here = Here {
        given,
        file,
        enclosing: &enclosing,
    };
    add_outside(alloc, reasons, here, definition)?;
    add_lists(alloc, reasons, given, file, definition)
}

/// Why the file of this number is refused for its constants and numbers, where no name is.
pub fn reasons_of_consts(
    alloc: Global,
    given: Given<'_>,
    file: usize,
) -> Result<Vec<Reason>, AllocError> {
    let mut reasons = Vec::new(alloc);
    let Some(named) = given.files.get(file) else {
        return Ok(reasons);
    };
    add_things(alloc, &mut reasons, given, file)?;
    for definition in &definitions(alloc, &named.tree)? {
        add_definition(alloc, &mut reasons, given, file, definition)?;
    }
    Ok(reasons)
}
