//! Why files are refused for their names.

use crate::look_up::{Given, meaning};
use crate::members::{MemberList, lists_of};
use crate::reasons::{Reason, Word, add_reason};
use crate::things::Thing;
use crate::uses::{Use, Wanted, uses_in};
use mojom_files::{Basic, DefinitionView, ItemView, definitions, dotted};
use std::alloc::{AllocError, Global};

/// Where a file stands in the resolved order.
fn turn(given: Given<'_>, file: usize) -> Option<usize> {
    let mut order = given.order.iter();
    order.position(|number| *number == file)
}

/// Whether a definition of this full name comes before one of the file of this number, that has this number there.
fn is_defined_before(given: Given<'_>, full: &str, file: usize, number: usize) -> bool {
    let mut things = given.things.iter();
    things.any(|other| {
        let is_before = if other.file == file {
            other.number < number
        } else {
            turn(given, other.file) < turn(given, file)
        };
        !other.is_enumerator && is_before && other.full.as_str() == full
    })
}

/// Adds the definitions of a file that have a full name which one before has, or are named as a basic kind.
fn add_definitions(
    alloc: Global,
    reasons: &mut Vec<Reason>,
    given: Given<'_>,
    file: usize,
    definitions: &[DefinitionView<'_>],
) -> Result<(), AllocError> {
    for (number, one) in definitions.iter().enumerate() {
        let name = one.name();
        let text = name.text.as_str();
        let full = one.full(alloc)?;
        let is_double = is_defined_before(given, full.as_str(), file, number);
        if is_double || Basic::of_name(text).is_some() {
            add_reason(alloc, reasons, name.span.start, Word::DuplicateName, text)?;
        }
    }
    Ok(())
}

/// Adds the members of a list that are named as one before.
fn add_members(
    alloc: Global,
    reasons: &mut Vec<Reason>,
    list: &MemberList<'_>,
) -> Result<(), AllocError> {
    for (place, member) in list.members.iter().enumerate() {
        let text = member.name.text.as_str();
        let mut before = list.members.iter().take(place);
        if before.any(|other| other.name.text.as_str() == text) {
            add_reason(
                alloc,
                reasons,
                member.name.span.start,
                Word::DuplicateName,
                text,
            )?;
        }
    }
    Ok(())
}

/// Adds the members of definitions that are named as one before in their list.
fn add_all_members(
    alloc: Global,
    reasons: &mut Vec<Reason>,
    definitions: &[DefinitionView<'_>],
) -> Result<(), AllocError> {
    for definition in definitions {
        for list in &lists_of(alloc, definition)? {
            add_members(alloc, reasons, list)?;
        }
    }
    Ok(())
}

/// Whether a thing can stand where a name is used.
fn can_stand(thing: &Thing<'_>, wanted: Wanted) -> bool {
    match wanted {
        Wanted::Value => thing.is_enumerator || matches!(thing.item, ItemView::Const(_)),
        Wanted::Interface => {
            !thing.is_enumerator && matches!(thing.item, ItemView::Interface(_))
        }
        Wanted::Type => {
            let is_type = matches!(
                thing.item,
                ItemView::Struct(_) | ItemView::Union(_) | ItemView::Enum(_)
            );
            !thing.is_enumerator && is_type
        }
    }
}

/// Adds a name that means nothing, or what can't stand there.
fn add_use(
    alloc: Global,
    reasons: &mut Vec<Reason>,
    given: Given<'_>,
    one: &Use<'_>,
) -> Result<(), AllocError> {
    let [first, ..] = one.name.parts.as_slice() else {
        return Ok(());
    };
    let thing = match meaning(alloc, given, one.file, &one.enclosing, one.name)? {
        Some(number) => given.things.get(number),
        None => None,
    };
    let word = match thing {
        Some(thing) if can_stand(thing, one.wanted) => return Ok(()),
        Some(_) => Word::WrongSort,
        None => Word::UnknownName,
    };
    let text = dotted(alloc, one.name.parts.as_slice())?;
    add_reason(alloc, reasons, first.span.start, word, text.as_str())
}

/// Why the file of this number is refused for its names.
pub fn reasons_of_names(
    alloc: Global,
    given: Given<'_>,
    file: usize,
) -> Result<Vec<Reason>, AllocError> {
    let mut reasons = Vec::new(alloc);
    let Some(named) = given.files.get(file) else {
        return Ok(reasons);
    };
    let definitions = definitions(alloc, &named.tree)?;
    add_definitions(alloc, &mut reasons, given, file, &definitions)?;
    add_all_members(alloc, &mut reasons, &definitions)?;
    for one in &uses_in(alloc, given, file)? {
        add_use(alloc, &mut reasons, given, one)?;
    }
    Ok(reasons)
}
