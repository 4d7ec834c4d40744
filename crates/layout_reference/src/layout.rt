//! The layout of structs, computed literally: each place by trying all bit addresses in turn.

use mj_schema::{DraftField, Flag, Kind, KindNode, Place, VersionRow, Width};
use std::alloc::{AllocError, Global};

/// How many bits a value takes, and what its bit address is a multiple of.
fn room(kind: &Kind) -> (usize, usize) {
    match kind.node() {
        KindNode::Bool { .. } => (1, 1),
        KindNode::Int { width, .. } => match width {
            Width::Bits8 => (8, 8),
            Width::Bits16 => (16, 16),
            Width::Bits32 => (32, 32),
            Width::Bits64 => (64, 64),
        },
        KindNode::Enum { .. } => (32, 32),
        KindNode::Text { .. } => (64, 64),
        KindNode::Array { .. } => (64, 64),
        KindNode::Map { .. } => (64, 64),
        KindNode::Struct { .. } => (64, 64),
        KindNode::Handle { .. } => (32, 32),
        KindNode::Receiver { .. } => (32, 32),
        KindNode::AssociatedReceiver { .. } => (32, 32),
        KindNode::Remote { .. } => (64, 32),
        KindNode::AssociatedRemote { .. } => (64, 32),
        KindNode::Union { .. } => (128, 64),
    }
}

/// Whether a bit before the value says that there is one.
fn has_flag(kind: &Kind) -> bool {
    match kind.node() {
        KindNode::Bool { nullable } => *nullable,
        KindNode::Int { nullable, .. } => *nullable,
        KindNode::Enum { nullable, .. } => *nullable,
        _ => false,
    }
}

/// Whether none of so many bits from a bit address on is taken.
fn is_free(taken: &[bool], at: usize, size: usize) -> bool {
    for bit in at..at.saturating_add(size) {
        if taken.get(bit).copied() == Some(true) {
            return false;
        }
    }
    true
}

/// The least bit address that fits.
fn least(taken: &[bool], size: usize, alignment: usize) -> usize {
    for at in 0..taken.len().saturating_add(alignment) {
        if at.checked_rem(alignment) == Some(0) && is_free(taken, at, size) {
            return at;
        }
    }
    taken.len()
}

/// The places of declared fields, in ordinal order.
pub fn places(alloc: Global, fields: &[DraftField]) -> Result<Vec<Place>, AllocError> {
    let mut taken = Vec::new(alloc);
    let mut places = Vec::new(alloc);
    for field in fields {
        let flag = if has_flag(&field.kind) {
            let (offset, bit) = take_least(&mut taken, 1, 1)?;
            Some(Flag { offset, bit })
        } else {
            None
        };
        let (size, alignment) = room(&field.kind);
        let (offset, bit) = take_least(&mut taken, size, alignment)?;
        places.push(Place { offset, bit, flag })?;
    }
    Ok(places)
}

/// Takes the least place that fits, and answers its byte and bit.
fn take_least(
    taken: &mut Vec<bool>,
    size: usize,
    alignment: usize,
) -> Result<(u32, u32), AllocError> {
    let at = least(taken, size, alignment);
    take_bits(taken, at, size)?;
    let offset = u32::try_from(at / 8).unwrap_or(0);
    let bit = u32::try_from(at % 8).unwrap_or(0);
    Ok((offset, bit))
}

/// Marks so many bits from a bit address on as taken.
fn take_bits(taken: &mut Vec<bool>, at: usize, size: usize) -> Result<(), AllocError> {
    for _ in taken.len()..at.saturating_add(size) {
        taken.push(false)?;
    }
    for bit in at..at.saturating_add(size) {
        if let Some(slot) = taken.get_mut(bit) {
            *slot = true;
        }
    }
    Ok(())
}

/// The row of a version: the fields up to it, and the bytes up to their greatest end.
fn version_row(fields: &[DraftField], places: &[Place], version: u32) -> VersionRow {
    let mut count: u32 = 0;
    let mut end: u32 = 0;
    for (field, place) in fields.iter().zip(places) {
        if field.min_version <= version {
            let (size, _) = room(&field.kind);
            let size = u32::try_from(size).unwrap_or(0);
            let bits = place.offset.saturating_mul(8).saturating_add(place.bit);
            count = count.saturating_add(1);
            end = end.max(bits.saturating_add(size).div_ceil(8));
            if let Some(flag) = place.flag {
                end = end.max(flag.offset.saturating_add(1));
            }
        }
    }
    let mut bytes = end.saturating_add(8);
    for _ in 0..7 {
        if bytes % 8 != 0 {
            bytes = bytes.saturating_add(1);
        }
    }
    VersionRow {
        version,
        fields: count,
        bytes,
    }
}

/// The rows of a struct of these fields: one for 0, and one for each other version that occurs.
pub fn version_rows(
    alloc: Global,
    fields: &[DraftField],
    places: &[Place],
) -> Result<Vec<VersionRow>, AllocError> {
    let mut rows = vec![in alloc; version_row(fields, places, 0)]?;
    for field in fields {
        let version = field.min_version;
        if rows.iter().all(|row| row.version != version) {
            rows.push(version_row(fields, places, version))?;
        }
    }
    Ok(rows)
}
