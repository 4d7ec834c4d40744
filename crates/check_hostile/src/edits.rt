//! Edits that numbers draw.

use check_files::Draws;
use std::alloc::{AllocError, Global};

/// How many edits one input has at most.
const MOST_EDITS: usize = 4;

/// The longest run of bytes that is cut out, stands twice or is moved.
const MOST_RUN: usize = 24;

/// How many kinds of edits there are.
const KINDS: usize = 8;

/// Bytes that mean something in one of the formats.
const BYTES: &[u8] = b"(){}[]<>,;:.-+=?%^#@|\"\\ \n\t\r0123456789aefntxzAZ_\x00\x7f\x80\xc3\xff";

/// Numbers of 32 bits that mean something in a message.
const WORDS: &[u32] = &[
    0,
    1,
    2,
    3,
    4,
    7,
    8,
    16,
    24,
    32,
    40,
    48,
    56,
    64,
    255,
    256,
    65_535,
    2_147_483_647,
    2_147_483_648,
    2_147_483_649,
    4_294_967_295,
];

/// The bytes from a place on.
fn behind_of(bytes: &[u8], at: usize) -> &[u8] {
    let end = bytes.len();
    bytes.get(at.min(end)..).unwrap_or(bytes)
}

/// So many of the first bytes.
fn front_of(bytes: &[u8], count: usize) -> &[u8] {
    bytes.get(..count).unwrap_or(bytes)
}

/// A place in bytes, or behind them.
fn place_in(draws: &mut Draws, bytes: &[u8]) -> usize {
    draws.below(bytes.len().saturating_add(1))
}

/// A byte: half of them mean something.
fn drawn_byte(draws: &mut Draws) -> u8 {
    if draws.below(2) == 0 {
        return (draws.below(256) % 256) as u8;
    }
    let place = draws.below(BYTES.len());
    match BYTES.get(place) {
        Some(byte) => *byte,
        None => 0,
    }
}

/// A number of 32 bits that means something.
fn drawn_word(draws: &mut Draws) -> u32 {
    let place = draws.below(WORDS.len());
    match WORDS.get(place) {
        Some(word) => *word,
        None => 0,
    }
}

/// Bytes with one edit: a byte or a number of 32 bits is put in place of what stands there, or a byte between; a run is cut out,
/// stands twice, or changes places with the one behind it; the end is cut off; or the end of other bytes stands there.
fn edited(
    alloc: Global,
    draws: &mut Draws,
    bytes: &[u8],
    other: &[u8],
) -> Result<Vec<u8>, AllocError> {
    let kind = draws.below(KINDS);
    let drawn = place_in(draws, bytes);
    let at = if kind == 1 {
        drawn.saturating_sub(drawn % 4)
    } else {
        drawn
    };
    let run = draws.below(MOST_RUN).saturating_add(1);
    let behind = behind_of(bytes, at);
    let mut made = Vec::from_slice(alloc, front_of(bytes, at))?;
    match kind {
        0 => {
            made.push(drawn_byte(draws))?;
            made.extend_from_slice(behind_of(behind, 1))?;
        }
        1 => {
            made.extend_from_slice(&drawn_word(draws).to_le_bytes())?;
            made.extend_from_slice(behind_of(behind, 4))?;
        }
        2 => {
            made.push(drawn_byte(draws))?;
            made.extend_from_slice(behind)?;
        }
        3 => made.extend_from_slice(behind_of(behind, run))?,
        4 => {
            made.extend_from_slice(front_of(behind, run))?;
            made.extend_from_slice(behind)?;
        }
        5 => {
            let second = behind_of(behind, run);
            made.extend_from_slice(front_of(second, run))?;
            made.extend_from_slice(front_of(behind, run))?;
            made.extend_from_slice(behind_of(second, run))?;
        }
        6 => {}
        _ => {
            let from = place_in(draws, other);
            made.extend_from_slice(behind_of(other, from))?;
        }
    }
    Ok(made)
}

/// Bytes with one to four edits; other bytes may stand in place of their end.
pub fn hostile(
    alloc: Global,
    draws: &mut Draws,
    bytes: &[u8],
    other: &[u8],
) -> Result<Vec<u8>, AllocError> {
    let mut made = edited(alloc, draws, bytes, other)?;
    for _ in 0..draws.below(MOST_EDITS) {
        made = edited(alloc, draws, made.as_slice(), other)?;
    }
    Ok(made)
}
