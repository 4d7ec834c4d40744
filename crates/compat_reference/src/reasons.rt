//! All pairs that are reached, and all reasons of each, one by one as the rules name them.

use crate::definitions::{Given, definition_of, partner_of};
use crate::found::{Found, Pair, Word};
use crate::kinds::fit;
use crate::members::{field_of, kind_under, method_of, newest_version, ordinals_of, tags_of};
use mj_schema::{EnumRow, FieldRow, InterfaceRow, MethodRow, RowSort, StructRow, UnionRow};
use std::alloc::{AllocError, Global};

/// How many pairs are looked at.
const MOST_PAIRS: usize = 100_000;

/// Adds what breaks two fields of one ordinal.
fn add_of_fields(
    alloc: Global,
    given: Given<'_>,
    found: &mut Found,
    old: &FieldRow,
    new: &FieldRow,
) -> Result<(), AllocError> {
    let number = Some(i64::from(old.ordinal));
    if !fit(alloc, given, found, old.kind.node(), new.kind.node())? {
        found.add(Word::KindChanged, number)?;
    }
    if old.min_version != new.min_version {
        found.add(Word::VersionChanged, number)?;
    }
    Ok(())
}

/// Adds the fields of the newer struct that the older one lacks, and that come with no newer version.
fn add_early(found: &mut Found, old: &StructRow, new: &StructRow) -> Result<(), AllocError> {
    let newest = newest_version(old);
    for field in new.fields.as_slice() {
        if field_of(old, field.ordinal).is_none() && field.min_version <= newest {
            found.add(Word::EarlyField, Some(i64::from(field.ordinal)))?;
        }
    }
    Ok(())
}

/// Adds what breaks two structs.
fn add_of_structs(
    alloc: Global,
    given: Given<'_>,
    found: &mut Found,
    old: &StructRow,
    new: &StructRow,
) -> Result<(), AllocError> {
    for field in old.fields.as_slice() {
        match field_of(new, field.ordinal) {
            Some(other) => add_of_fields(alloc, given, found, field, other)?,
            None => found.add(Word::FieldGone, Some(i64::from(field.ordinal)))?,
        }
    }
    add_early(found, old, new)
}

/// Adds what breaks two unions.
fn add_of_unions(
    alloc: Global,
    given: Given<'_>,
    found: &mut Found,
    old: &UnionRow,
    new: &UnionRow,
) -> Result<(), AllocError> {
    if old.extensible && !new.extensible {
        found.add(Word::ExtensibleGone, None)?;
    }
    for tag in &tags_of(alloc, old)? {
        let number = Some(i64::from(*tag));
        match (kind_under(old, *tag), kind_under(new, *tag)) {
            (Some(one), Some(other)) => {
                if !fit(alloc, given, found, one.node(), other.node())? {
                    found.add(Word::KindChanged, number)?;
                }
            }
            _ => found.add(Word::TagGone, number)?,
        }
    }
    Ok(())
}

/// Adds what breaks two enums.
fn add_of_enums(found: &mut Found, old: &EnumRow, new: &EnumRow) -> Result<(), AllocError> {
    if old.extensible && !new.extensible {
        found.add(Word::ExtensibleGone, None)?;
    }
    for member in old.members.as_slice() {
        let number = member.number;
        let mut others = new.members.as_slice().iter();
        if !new.extensible && !others.any(|other| other.number == number) {
            found.add(Word::MemberGone, Some(i64::from(number)))?;
        }
    }
    Ok(())
}

/// Adds what breaks two methods of one ordinal, and the pairs of their requests and of their responses.
fn add_of_methods(found: &mut Found, old: &MethodRow, new: &MethodRow) -> Result<(), AllocError> {
    found.reach(RowSort::Struct, old.request, new.request)?;
    match (old.response, new.response) {
        (Some(i), Some(j)) => found.reach(RowSort::Struct, i, j),
        (None, None) => Ok(()),
        _ => found.add(Word::ResponseChanged, Some(i64::from(old.ordinal))),
    }
}

/// Adds what breaks two interfaces.
fn add_of_interfaces(
    alloc: Global,
    found: &mut Found,
    old: &InterfaceRow,
    new: &InterfaceRow,
) -> Result<(), AllocError> {
    for ordinal in &ordinals_of(alloc, old)? {
        match (method_of(old, *ordinal), method_of(new, *ordinal)) {
            (Some(one), Some(other)) => add_of_methods(found, one, other)?,
            _ => found.add(Word::MethodGone, Some(i64::from(*ordinal)))?,
        }
    }
    Ok(())
}

/// Adds what breaks a pair of which the newer definition has this number.
fn add_of_pair(
    alloc: Global,
    given: Given<'_>,
    found: &mut Found,
    pair: Pair,
    number: u32,
) -> Result<(), AllocError> {
    let (old, new) = (given.old, given.new);
    let (i, j) = (pair.old as usize, number as usize);
    match pair.sort {
        RowSort::Struct => match (old.structs.as_slice().get(i), new.structs.as_slice().get(j)) {
            (Some(one), Some(other)) => add_of_structs(alloc, given, found, one, other),
            _ => Ok(()),
        },
        RowSort::Union => match (old.unions.as_slice().get(i), new.unions.as_slice().get(j)) {
            (Some(one), Some(other)) => add_of_unions(alloc, given, found, one, other),
            _ => Ok(()),
        },
        RowSort::Enum => match (old.enums.as_slice().get(i), new.enums.as_slice().get(j)) {
            (Some(one), Some(other)) => add_of_enums(found, one, other),
            _ => Ok(()),
        },
        RowSort::Interface => {
            let newer = new.interfaces.as_slice().get(j);
            match (old.interfaces.as_slice().get(i), newer) {
                (Some(one), Some(other)) => add_of_interfaces(alloc, found, one, other),
                _ => Ok(()),
            }
        }
        RowSort::Const => Ok(()),
    }
}

/// Adds why a stable definition's partner of this number won't do, where it isn't stable.
fn add_of_root(
    given: Given<'_>,
    found: &mut Found,
    pair: Pair,
    new: u32,
) -> Result<(), AllocError> {
    match definition_of(given.new, pair.sort, new) {
        Some(definition) if !definition.stable => found.add(Word::NotStable, None),
        _ => Ok(()),
    }
}

/// The stable definitions of the older schema in the order of its file, each with the newer schema's of its sort and full name.
fn roots(alloc: Global, given: Given<'_>) -> Result<Vec<Pair>, AllocError> {
    let mut pairs = Vec::new(alloc);
    for row in given.old.order.as_slice() {
        match definition_of(given.old, row.sort, row.number) {
            Some(definition) if definition.stable => {
                let new = partner_of(alloc, given.new, row.sort, definition.name)?;
                let (sort, old) = (row.sort, row.number);
                pairs.push(Pair { sort, old, new })?;
            }
            _ => {}
        }
    }
    Ok(pairs)
}

/// How many definitions of the older schema are stable, and what is found from them on: pair after pair, until nothing new comes.
pub fn all_found(alloc: Global, given: Given<'_>) -> Result<(usize, Found), AllocError> {
    let pairs = roots(alloc, given)?;
    let stable = pairs.len();
    let mut found = Found {
        pairs,
        reasons: Vec::new(alloc),
        place: 0,
    };
    for place in 0..MOST_PAIRS {
        let Some(pair) = found.pairs.get(place).copied() else {
            break;
        };
        found.place = place;
        match pair.new {
            Some(new) => {
                if place < stable {
                    add_of_root(given, &mut found, pair, new)?;
                }
                add_of_pair(alloc, given, &mut found, pair, new)?;
            }
            None => found.add(Word::Missing, None)?,
        }
    }
    Ok((stable, found))
}
