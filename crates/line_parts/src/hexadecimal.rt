//! Bytes in hexadecimal.

ghost use Rattle.std.specs.Prelude.{◌≡◌, ◌<◌, ◌∷◌, [], IsTrue};
ghost use Rattle.byte_rules.specs.Lang.{many};
ghost use Rattle.byte_rules.specs.Reading.{Gives};
ghost use Rattle.byte_rules.specs.steps.Reading.{with_front};
ghost use Rattle.value_text.specs.Characters.{is_hex, hex_value};
ghost use Rattle.line_parts.specs.Lists.{pair, hex};

use byte_rules::{Stop, expect, is_next};
use mj_base::Items;
use std::alloc::Global;

/// Whether the byte is a hexadecimal digit in lower case.
fn is_hex(byte: u8) -> bool
    ensures { result ≡ is_hex byte }
{
    (b'0' <= byte && byte <= b'9') || (b'a' <= byte && byte <= b'f')
}

/// What a digit is worth.
fn hex_value(digit: u8) -> u8
    requires { IsTrue (is_hex digit) }
    ensures value { result ≡ hex_value digit }
    ensures small { result < 16 }
{
    if digit <= b'9' {
        digit - b'0'
    } else {
        digit - 87
    }
}

/// A byte as two digits, and the bytes after them.
#[tactic(auto, unfolding(crate::specs::Lists::pair))]
fn pair(bytes: &[u8]) -> Result<(u8, &[u8]), Stop>
    ensures { Gives (λ x. (x.0, x.1.now)) result (pair.read bytes.now) }
{
    match bytes {
        [high, low, rest @ ..] if is_hex(*high) && is_hex(*low) => {
            Ok((16 * hex_value(*high) + hex_value(*low), rest))
        }
        [high, rest @ ..] if is_hex(*high) => Err(Stop::Left(rest.len())),
        _ => Err(Stop::Left(bytes.len())),
    }
}

/// Bytes as pairs of digits behind those of `items`, up to the last byte, and the bytes after it.
fn more_pairs(items: Vec<u8>, last: u8, bytes: &[u8]) -> Result<(Vec<u8>, &[u8]), Stop>
    ensures { Gives (λ x. (x.0.items, x.1.now)) result (with_front (λ b. b ∷ []) items.items ((many last pair).read bytes.now)) }
{
    let mut items = items;
    let mut rest = bytes;
    for _ in 0..bytes.len() {
        if is_next(rest, last) {
            let rest = expect(rest, last)?;
            return Ok((items, rest));
        }
        let (item, after) = pair(rest)?;
        items.push(item)?;
        rest = after;
    }
    let rest = expect(rest, last)?;
    Ok((items, rest))
}

/// Bytes in hexadecimal, and the bytes after the one that ends them.
#[tactic(auto, unfolding(crate::specs::Lists::hex), using(crate::proofs::ListReads::first_and_more))]
pub fn hexadecimal(alloc: Global, last: u8, bytes: &[u8]) -> Result<(Items<u8>, &[u8]), Stop>
    ensures { Gives (λ x. (x.0, x.1.now)) result ((hex last).read bytes.now) }
{
    let mut items = Vec::new(alloc);
    if is_next(bytes, b'-') {
        let rest = expect(bytes, b'-')?;
        let rest = expect(rest, last)?;
        return Ok((Items::from_vec(items), rest));
    }
    let (first, rest) = pair(bytes)?;
    items.push(first)?;
    let (items, rest) = more_pairs(items, last, rest)?;
    Ok((Items::from_vec(items), rest))
}
