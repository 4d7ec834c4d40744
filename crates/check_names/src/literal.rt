//! What names, constants and enumerators mean to the stages, beside what they literally mean.

use crate::answer::placed;
use crate::stages::Stages;
use const_eval::Consts;
use const_meanings::KnownView;
use module_resolver::{Names, Target};
use mojom_ast::Name;
use mojom_files::{NamedFile, dotted};
use names_reference::{
    Found, Given, Origin, Thing, Use, meaning, order, things_of, uses_of, value, value_of,
};
use std::alloc::{AllocError, Global};

/// A place: the number of a file, and a byte of it.
type Place = (usize, u64);

/// Where a name begins.
fn start_of(name: &Name) -> u64 {
    match name.parts.as_slice() {
        [part, ..] => part.span.start,
        [] => 0,
    }
}

/// What a thing is to the stages.
fn target_of(thing: &Thing<'_>) -> Target {
    let file = u32::try_from(thing.file).unwrap_or(u32::MAX);
    let number = thing.number;
    if thing.is_enumerator {
        Target::Enumerator { file, number }
    } else {
        Target::Definition { file, number }
    }
}

/// What the stages know of a value, as the literal reading has it.
fn found(known: Option<KnownView<'_>>) -> Found<'_> {
    match known {
        Some(KnownView::Text(bytes)) => Found::Text(bytes),
        Some(KnownView::Bool(value)) => Found::Bool(value),
        Some(KnownView::Number(number)) => Found::Number(number),
        Some(KnownView::Float) => Found::Float,
        None => Found::Nothing,
    }
}

/// Whether a name that is used means the same by both in the file of this number, and something where that
/// is its own file.
fn is_same_meaning(
    alloc: Global,
    given: Given<'_>,
    names: &Names,
    one: &Use<'_>,
    file: usize,
) -> Result<bool, AllocError> {
    let text = dotted(alloc, one.name.parts.as_slice())?;
    let number = u32::try_from(file).unwrap_or(u32::MAX);
    let place = names.place(number, &one.enclosing);
    let target = place.look_up(text.as_str());
    let thing = match meaning(alloc, given, file, &one.enclosing, one.name)? {
        Some(number) => given.things.get(number),
        None => None,
    };
    Ok(thing.map(target_of) == target && (target.is_some() || file != one.file))
}

/// Where a name is used, anywhere, that means another thing by both in the file of this number.
fn other_meaning_in(
    alloc: Global,
    given: Given<'_>,
    names: &Names,
    file: usize,
) -> Result<Option<Place>, AllocError> {
    for one in uses_of(alloc, given)?.as_slice() {
        if !is_same_meaning(alloc, given, names, one, file)? {
            return Ok(Some((one.file, start_of(one.name))));
        }
    }
    Ok(None)
}

/// Where a name is used that means another thing by both in some file.
fn other_meaning(
    alloc: Global,
    given: Given<'_>,
    names: &Names,
) -> Result<Option<Place>, AllocError> {
    for file in given.order {
        let other = other_meaning_in(alloc, given, names, *file)?;
        if other.is_some() {
            return Ok(other);
        }
    }
    Ok(None)
}

/// Whether the thing of this number, and the value that is written of it, are the same by both.
fn is_same_value(
    alloc: Global,
    given: Given<'_>,
    stages: (&Names, &Consts),
    number: usize,
    thing: &Thing<'_>,
) -> Result<bool, AllocError> {
    let (names, consts) = stages;
    let known = consts.value_of_target(target_of(thing));
    if value(alloc, given, number)? != found(known) {
        return Ok(false);
    }
    let Origin::Written(written) = thing.origin else {
        return Ok(true);
    };
    let file = u32::try_from(thing.file).unwrap_or(u32::MAX);
    let place = names.place(file, &thing.enclosing);
    let known = consts.value_of(alloc, &place, written)?;
    Ok(value_of(alloc, given, thing.file, &thing.enclosing, written)? == found(known))
}

/// Where a thing stands that is another by both.
fn other_value(
    alloc: Global,
    given: Given<'_>,
    stages: (&Names, &Consts),
) -> Result<Option<Place>, AllocError> {
    for (number, thing) in given.things.iter().enumerate() {
        if !is_same_value(alloc, given, stages, number, thing)? {
            return Ok(Some((thing.file, thing.name.span.start)));
        }
    }
    Ok(None)
}

/// What differs in files that both have in this order.
fn difference_in_order(
    alloc: Global,
    given: Given<'_>,
    stages: &Stages,
) -> Result<Option<String>, AllocError> {
    let Some(names) = &stages.names else {
        return Ok(None);
    };
    if let Some((file, at)) = other_meaning(alloc, given, names)? {
        let difference = placed(alloc, given.files, file, at, "another meaning")?;
        return Ok(Some(difference));
    }
    let Some(consts) = &stages.consts else {
        return Ok(None);
    };
    match other_value(alloc, given, (names, consts))? {
        Some((file, at)) => Ok(Some(placed(alloc, given.files, file, at, "another value")?)),
        None => Ok(None),
    }
}

/// Whether files have the same order by both, or none.
fn is_same_order(literal: &Option<Vec<usize>>, numbers: &Option<Vec<u32>>) -> bool {
    match (literal, numbers) {
        (Some(literal), Some(numbers)) => {
            let mut pairs = literal.iter().zip(numbers);
            literal.len() == numbers.len() && pairs.all(|(one, other)| *one == *other as usize)
        }
        (None, None) => true,
        _ => false,
    }
}

/// What differs between the stages and the literal reading, as far as the stages come; none where nothing does.
pub fn difference(
    alloc: Global,
    files: &[NamedFile],
    stages: &Stages,
) -> Result<Option<String>, AllocError> {
    let literal = order(alloc, files)?;
    if !is_same_order(&literal, &stages.order) {
        return Ok(Some(String::from_str(alloc, "another order")?));
    }
    let Some(literal) = &literal else {
        return Ok(None);
    };
    let things = things_of(alloc, files)?;
    let given = Given {
        files,
        order: literal.as_slice(),
        things: things.as_slice(),
    };
    difference_in_order(alloc, given, stages)
}
