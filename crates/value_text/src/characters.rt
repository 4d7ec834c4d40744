//! Texts.

ghost use Rattle.std.specs.Prelude.{◌≡◌, ◌++◌, ◌∷◌, [], Ok, Err, true, ◌-◌, ◌*◌, ◌+◌};
ghost use Rattle.std.specs.List.{flat_map};
ghost use Rattle.byte_rules.specs.Lang.{byte_in, as_value, many};
ghost use Rattle.byte_rules.specs.Reading.{Gives, Fails};
ghost use Rattle.byte_rules.specs.steps.Reading.{with_front, behind};
ghost use Rattle.value_text.specs.Characters.{is_hex, hex_value, low_pair, escape, is_plain, leads_two, leads_three, leads_four, goes_on, second_of};
ghost use Rattle.value_text.specs.Characters.{two_bytes, three_bytes, four_bytes, character, all_of, text};
ghost use Rattle.value_text.specs.Signs.{quote};

use crate::numbers::is_digit;
use byte_rules::{Stop, expect, is_next};
use std::alloc::Global;

/// Whether the byte is a hexadecimal digit, in lower case.
fn is_hex(byte: u8) -> bool
    ensures { result ≡ is_hex byte }
{
    is_digit(byte) || (b'a' <= byte && byte <= b'f')
}

/// The value of a hexadecimal digit.
fn hex_value(byte: u8) -> u8
    requires { is_hex byte ≡ true }
    ensures { result ≡ hex_value byte }
{
    if byte <= b'9' { byte - b'0' } else { byte - 87 }
}

/// Two hexadecimal digits of a number below 32, and the bytes after them.
fn low_pair(bytes: &[u8]) -> Result<(u8, &[u8]), Stop>
    ensures { Gives (λ x. (x.0 ∷ [], x.1.now)) result (low_pair.read bytes.now) }
{
    match bytes {
        [high, rest @ ..] => {
            if !(b'0' <= *high && *high <= b'1') {
                return Err(Stop::Left(bytes.len()));
            }
            match rest {
                [low, after @ ..] => {
                    if !is_hex(*low) {
                        return Err(Stop::Left(rest.len()));
                    }
                    Ok((16 * (*high - b'0') + hex_value(*low), after))
                }
                [] => Err(Stop::Left(0)),
            }
        }
        [] => Err(Stop::Left(0)),
    }
}

/// What stands behind a backslash: the byte that it stands for, and the bytes after it.
#[tactic(auto, unfolding(crate::specs::Characters::escape))]
fn escape(bytes: &[u8]) -> Result<(u8, &[u8]), Stop>
    ensures { Gives (λ x. (x.0 ∷ [], x.1.now)) result (escape.read bytes.now) }
{
    if is_next(bytes, b'"') {
        let rest = expect(bytes, b'"')?;
        return Ok((b'"', rest));
    }
    if is_next(bytes, b'\\') {
        let rest = expect(bytes, b'\\')?;
        return Ok((b'\\', rest));
    }
    let rest = expect(bytes, b'x')?;
    low_pair(rest)
}

/// Whether the byte stands for itself.
fn is_plain(byte: u8) -> bool
    ensures { result ≡ is_plain byte }
{
    32 <= byte && byte <= 127 && !(byte == b'"') && !(byte == b'\\')
}

/// Whether the byte goes on with a character.
fn goes_on(byte: u8) -> bool
    ensures { result ≡ goes_on byte }
{
    128 <= byte && byte <= 191
}

/// Whether the byte may stand behind the first one.
fn is_second(first: u8, byte: u8) -> bool
    ensures { result ≡ second_of first byte }
{
    let low = if first == 224 {
        160
    } else if first == 240 {
        144
    } else {
        128
    };
    let high = if first == 237 {
        159
    } else if first == 244 {
        143
    } else {
        191
    };
    low <= byte && byte <= high
}

/// The next byte, which goes on with a character, and the bytes after it.
fn next_part(bytes: &[u8]) -> Result<(u8, &[u8]), Stop>
    ensures { Gives (λ x. (x.0, x.1.now)) result ((byte_in goes_on).read bytes.now) }
{
    match bytes {
        [first, rest @ ..] => {
            if goes_on(*first) {
                Ok((*first, rest))
            } else {
                Err(Stop::Left(bytes.len()))
            }
        }
        [] => Err(Stop::Left(0)),
    }
}

/// The next byte, which may stand behind the first one, and the bytes after it.
fn second_part(first: u8, bytes: &[u8]) -> Result<(u8, &[u8]), Stop>
    ensures { Gives (λ x. (x.0, x.1.now)) result ((byte_in (second_of first)).read bytes.now) }
{
    match bytes {
        [second, rest @ ..] => {
            if is_second(first, *second) {
                Ok((*second, rest))
            } else {
                Err(Stop::Left(bytes.len()))
            }
        }
        [] => Err(Stop::Left(0)),
    }
}

/// A character of two bytes, and the bytes after it.
#[tactic(auto, unfolding(crate::specs::Characters::two_bytes))]
fn two_bytes(bytes: &[u8]) -> Result<([u8; 2], &[u8]), Stop>
    ensures { Gives (λ x. (x.0, x.1.now)) result (two_bytes.read bytes.now) }
{
    match bytes {
        [first, rest @ ..] => {
            if !leads_two(*first) {
                return Err(Stop::Left(bytes.len()));
            }
            let (second, rest) = next_part(rest)?;
            Ok(([*first, second], rest))
        }
        [] => Err(Stop::Left(0)),
    }
}

/// A character of three bytes, and the bytes after it.
#[tactic(auto, unfolding(crate::specs::Characters::three_bytes))]
fn three_bytes(bytes: &[u8]) -> Result<([u8; 3], &[u8]), Stop>
    ensures { Gives (λ x. (x.0, x.1.now)) result (three_bytes.read bytes.now) }
{
    match bytes {
        [first, rest @ ..] => {
            if !leads_three(*first) {
                return Err(Stop::Left(bytes.len()));
            }
            let (second, rest) = second_part(*first, rest)?;
            let (third, rest) = next_part(rest)?;
            Ok(([*first, second, third], rest))
        }
        [] => Err(Stop::Left(0)),
    }
}

/// A character of four bytes, and the bytes after it.
#[tactic(auto, unfolding(crate::specs::Characters::four_bytes))]
fn four_bytes(bytes: &[u8]) -> Result<([u8; 4], &[u8]), Stop>
    ensures { Gives (λ x. (x.0, x.1.now)) result (four_bytes.read bytes.now) }
{
    match bytes {
        [first, rest @ ..] => {
            if !leads_four(*first) {
                return Err(Stop::Left(bytes.len()));
            }
            let (second, rest) = second_part(*first, rest)?;
            let (third, rest) = next_part(rest)?;
            let (fourth, rest) = next_part(rest)?;
            Ok(([*first, second, third, fourth], rest))
        }
        [] => Err(Stop::Left(0)),
    }
}

/// Whether the byte begins a character of two bytes.
fn leads_two(byte: u8) -> bool
    ensures { result ≡ leads_two byte }
{
    194 <= byte && byte <= 223
}

/// Whether the byte begins a character of three bytes.
fn leads_three(byte: u8) -> bool
    ensures { result ≡ leads_three byte }
{
    224 <= byte && byte <= 239
}

/// Whether the byte begins a character of four bytes.
fn leads_four(byte: u8) -> bool
    ensures { result ≡ leads_four byte }
{
    240 <= byte && byte <= 244
}

/// A character, put at the end of the text, and the bytes after it.
#[tactic(auto, unfolding(crate::specs::Characters::character), using(crate::proofs::CharacterLaws::no_character))]
fn character<'a>(out: &mut Vec<u8>, bytes: &'a [u8]) -> Result<&'a [u8], Stop>
    ensures { Gives (λ rest. (out.new.items, rest.now)) result (behind out.old.items (character.read bytes.now)) }
{
    if is_next(bytes, b'\\') {
        let rest = expect(bytes, b'\\')?;
        let (byte, rest) = escape(rest)?;
        out.push(byte)?;
        return Ok(rest);
    }
    match bytes {
        [first, rest @ ..] => {
            if is_plain(*first) {
                out.push(*first)?;
                return Ok(rest);
            }
            if leads_two(*first) {
                let (part, rest) = two_bytes(bytes)?;
                out.extend_from_slice(&part)?;
                return Ok(rest);
            }
            if leads_three(*first) {
                let (part, rest) = three_bytes(bytes)?;
                out.extend_from_slice(&part)?;
                return Ok(rest);
            }
            let (part, rest) = four_bytes(bytes)?;
            out.extend_from_slice(&part)?;
            Ok(rest)
        }
        [] => Err(Stop::Left(0)),
    }
}

/// Characters up to a quote, and the bytes after it.
fn characters(alloc: Global, bytes: &[u8]) -> Result<(Vec<u8>, &[u8]), Stop>
    ensures { Gives (λ x. (x.0.items, x.1.now)) result ((as_value all_of (many quote character)).read bytes.now) }
{
    let mut out = Vec::new(alloc);
    let mut rest = bytes;
    for _ in 0..bytes.len() {
        if is_next(rest, b'"') {
            let rest = expect(rest, b'"')?;
            return Ok((out, rest));
        }
        rest = character(&mut out, rest)?;
    }
    let rest = expect(rest, b'"')?;
    Ok((out, rest))
}

/// A text, and the bytes after it.
#[tactic(auto, unfolding(crate::specs::Characters::text))]
pub fn text(alloc: Global, bytes: &[u8]) -> Result<(Vec<u8>, &[u8]), Stop>
    ensures { Gives (λ x. (x.0.items, x.1.now)) result (text.read bytes.now) }
{
    let rest = expect(bytes, b'"')?;
    characters(alloc, rest)
}
