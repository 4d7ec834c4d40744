//! Why a file is refused for its kinds, ordinals and versions.

use crate::here::{Here, Sort, is_plain, sort_of, version_at};
use crate::orders::{gap, has_double, is_among_first, ordinals_of, place_before};
use crate::parts::{Part, Stand, parts_of};
use mojom_ast::{BaseNode, Identifier, TypeNode};
use mojom_files::{Basic, DefinitionView, ItemView, definitions};
use names_reference::{Given, ListSort, Member, MemberList, Reason, Word, add_reason, lists_of};
use std::alloc::{AllocError, Global};

/// How many members a list has at most.
const MOST_MEMBERS: usize = 4_096;

/// Adds a reason at an identifier, with its name alone.
fn add_at(
    alloc: Global,
    reasons: &mut Vec<Reason>,
    word: Word,
    name: &Identifier,
) -> Result<(), AllocError> {
    add_reason(alloc, reasons, name.span.start, word, name.text.as_str())
}

/// Whether a kind is `float` or `double`.
fn is_float(sort: Sort) -> bool {
    matches!(sort, Sort::Basic(Basic::Float | Basic::Double))
}

/// Whether a kind is a string, an array, a map, a struct, a union, a handle or an endpoint.
fn can_be_null(sort: Sort) -> bool {
    !is_plain(sort) && !is_float(sort)
}

/// The first that is wrong with a type of a sort within another, or with the whole; nothing where it can stand there.
fn wrong_part(part: &Part<'_>, sort: Sort) -> Option<Word> {
    let is_key = matches!(part.stand, Stand::Key);
    let is_key_kind = is_plain(sort) || matches!(sort, Sort::Basic(Basic::Text));
    if is_float(sort) {
        return Some(Word::FloatField);
    }
    if is_key && !is_key_kind {
        return Some(Word::BadMapKey);
    }
    if is_key && part.node.nullable {
        return Some(Word::NullableKey);
    }
    if matches!(part.stand, Stand::Other) && part.node.nullable && is_plain(sort) {
        return Some(Word::BadNullable);
    }
    match &part.node.base {
        BaseNode::Array {
            count: Some(count),
            ..
        } if count.value == 0 => Some(Word::ZeroLengthArray),
        _ => None,
    }
}

/// Adds what is wrong with the type of what has this identifier: of each type in it the word that is answered first.
fn add_type(
    alloc: Global,
    reasons: &mut Vec<Reason>,
    here: Here<'_>,
    name: &Identifier,
    kind: &TypeNode,
    stand: Stand,
) -> Result<(), AllocError> {
    for part in &parts_of(alloc, kind, stand)? {
        let sort = sort_of(alloc, here, &part.node.base)?;
        if let Some(word) = wrong_part(part, sort) {
            add_at(alloc, reasons, word, name)?;
        }
    }
    Ok(())
}

/// Adds the members of a list whose ordinal a member before has.
fn add_doubles(
    alloc: Global,
    reasons: &mut Vec<Reason>,
    members: &[Member<'_>],
    ordinals: &[i128],
) -> Result<(), AllocError> {
    for (place, (member, ordinal)) in members.iter().zip(ordinals).enumerate() {
        if is_among_first(ordinals, place, *ordinal) {
            let name = member.name.text.as_str();
            let fields = format!(in alloc; "{name} {ordinal}")?;
            let at = member.name.span.start;
            add_reason(alloc, reasons, at, Word::OrdinalDouble, fields.as_str())?;
        }
    }
    Ok(())
}

/// The version of each member of a list.
fn versions_of(
    alloc: Global,
    here: Here<'_>,
    members: &[Member<'_>],
) -> Result<Vec<i128>, AllocError> {
    let mut versions = Vec::new(alloc);
    for member in members {
        versions.push(version_at(alloc, here, member.attributes)?)?;
    }
    Ok(versions)
}

/// Adds the members whose version is below that of the one before, along the ordinals.
fn add_falls(
    alloc: Global,
    reasons: &mut Vec<Reason>,
    members: &[Member<'_>],
    ordinals: &[i128],
    versions: &[i128],
) -> Result<(), AllocError> {
    for (place, member) in members.iter().enumerate() {
        let ordinal = ordinals.get(place).copied().unwrap_or(0);
        let here = versions.get(place).copied().unwrap_or(0);
        let before = match place_before(ordinals, ordinal) {
            Some(before) => versions.get(before).copied().unwrap_or(0),
            None => 0,
        };
        if here < before {
            let name = member.name.text.as_str();
            let fields = format!(in alloc; "{name} {before} {here}")?;
            let at = member.name.span.start;
            add_reason(alloc, reasons, at, Word::VersionFalls, fields.as_str())?;
        }
    }
    Ok(())
}

/// Adds a member of a later version that can be null and has no `?`.
fn add_late(
    alloc: Global,
    reasons: &mut Vec<Reason>,
    here: Here<'_>,
    member: &Member<'_>,
) -> Result<(), AllocError> {
    let Some(kind) = member.kind else {
        return Ok(());
    };
    let sort = sort_of(alloc, here, &kind.base)?;
    let is_late = version_at(alloc, here, member.attributes)? > 0;
    if is_late && can_be_null(sort) && !kind.nullable {
        return add_at(alloc, reasons, Word::LateNotNullable, member.name);
    }
    Ok(())
}

/// Adds what is wrong with the ordinals and versions of a struct or of parameters, where no ordinal stands twice.
fn add_struct(
    alloc: Global,
    reasons: &mut Vec<Reason>,
    here: Here<'_>,
    list: &MemberList<'_>,
    ordinals: &[i128],
) -> Result<(), AllocError> {
    if let Some(ordinal) = gap(ordinals) {
        let name = list.head.text.as_str();
        let fields = format!(in alloc; "{name} {ordinal}")?;
        let at = list.head.span.start;
        add_reason(alloc, reasons, at, Word::OrdinalGap, fields.as_str())?;
    }
    let versions = versions_of(alloc, here, &list.members)?;
    add_falls(alloc, reasons, &list.members, ordinals, &versions)
}

/// Adds what is wrong with the ordinals and versions of a list.
fn add_numbers(
    alloc: Global,
    reasons: &mut Vec<Reason>,
    here: Here<'_>,
    list: &MemberList<'_>,
) -> Result<(), AllocError> {
    let ordinals = ordinals_of(alloc, &list.members)?;
    add_doubles(alloc, reasons, &list.members, &ordinals)?;
    if !matches!(list.sort, ListSort::Fields | ListSort::Parameters) {
        return Ok(());
    }
    if !has_double(&ordinals) {
        add_struct(alloc, reasons, here, list, &ordinals)?;
    }
    for member in &list.members {
        add_late(alloc, reasons, here, member)?;
    }
    Ok(())
}

/// Adds an enum without enumerators, and each enumerator with `Default` but the first.
fn add_enum(
    alloc: Global,
    reasons: &mut Vec<Reason>,
    list: &MemberList<'_>,
) -> Result<(), AllocError> {
    if list.members.is_empty() {
        add_at(alloc, reasons, Word::EmptyEnum, list.head)?;
    }
    let mut has_default = false;
    for member in &list.members {
        let mut attributes = member.attributes.iter();
        let is_default = attributes.any(|one| one.name.text.as_str() == "Default");
        if is_default && has_default {
            add_at(alloc, reasons, Word::DoubleDefault, member.name)?;
        }
        has_default |= is_default;
    }
    Ok(())
}

/// Adds what is wrong with a list.
fn add_list(
    alloc: Global,
    reasons: &mut Vec<Reason>,
    here: Here<'_>,
    list: &MemberList<'_>,
) -> Result<(), AllocError> {
    if list.members.len() > MOST_MEMBERS {
        add_at(alloc, reasons, Word::TooManyFields, list.head)?;
    }
    let stand = match list.sort {
        ListSort::Fields | ListSort::Parameters => Stand::Field,
        _ => Stand::Other,
    };
    for member in &list.members {
        if let Some(kind) = member.kind {
            add_type(alloc, reasons, here, member.name, kind, stand)?;
        }
    }
    match list.sort {
        ListSort::Enumerators => add_enum(alloc, reasons, list),
        _ => add_numbers(alloc, reasons, here, list),
    }
}

/// Adds what is wrong with a definition.
fn add_definition(
    alloc: Global,
    reasons: &mut Vec<Reason>,
    outside: Here<'_>,
    definition: &DefinitionView<'_>,
) -> Result<(), AllocError> {
    if let ItemView::Const(item) = definition.item() {
        let kind = item.kind.node();
        add_type(alloc, reasons, outside, &item.name, kind, Stand::Other)?;
    }
    let full = Some(definition.full(alloc)?);
    let inside = Here {
        given: outside.given,
        file: outside.file,
        enclosing: &full,
    };
    for list in &lists_of(alloc, definition)? {
        add_list(alloc, reasons, inside, list)?;
    }
    Ok(())
}

/// Why the file of this number is refused for its kinds, where no constant is.
pub fn reasons_of_kinds(
    alloc: Global,
    given: Given<'_>,
    file: usize,
) -> Result<Vec<Reason>, AllocError> {
    let mut reasons = Vec::new(alloc);
    let Some(named) = given.files.get(file) else {
        return Ok(reasons);
    };
    for definition in &definitions(alloc, &named.tree)? {
        let enclosing = definition.enclosing(alloc)?;
        let outside = Here {
            given,
            file,
            enclosing: &enclosing,
        };
        add_definition(alloc, &mut reasons, outside, definition)?;
    }
    Ok(reasons)
}
