//! Numbers.

ghost use Rattle.std.specs.Prelude.{◌≡◌, ◌≤◌, ◌<◌, ◌^◌, ◌-◌, Ok, pos, IfOk};
ghost use Rattle.byte_rules.specs.Lang.{as_value, front_is};
ghost use Rattle.byte_rules.specs.Reading.{Gives};
ghost use Rattle.value_text.specs.Numbers.{is_digit, scan_on, number, integer, whole, index};

use byte_rules::{Stop, expect, is_next};
use mj_schema::Width;

/// Whether the byte is a decimal digit.
pub fn is_digit(byte: u8) -> bool
    ensures { result ≡ is_digit byte }
{
    b'0' <= byte && byte <= b'9'
}

/// Whether a decimal digit is next.
pub fn is_digit_next(bytes: &[u8]) -> bool
    ensures { result ≡ front_is is_digit bytes.now }
{
    match bytes {
        [first, ..] => is_digit(*first),
        [] => false,
    }
}

/// The value of the digits behind those of `first`, as long as it is at most `high`, and the bytes after them.
#[tactic(auto, using(crate::proofs::NumberLaws::digits_at))]
fn digits(high: u64, first: u64, bytes: &[u8]) -> (u64, &[u8])
    requires { first ≤ high }
    ensures read { scan_on high first bytes.now ≡ Ok (result.0, result.1.now) }
    ensures high { result.0 ≤ high }
{
    let mut value = first;
    for (i, byte) in bytes.iter().enumerate() {
        if !is_digit(*byte) {
            return (value, &bytes[i..]);
        }
        let next = u128::from(value) * 10 + u128::from(*byte - b'0');
        if next > u128::from(high) {
            return (value, &bytes[i..]);
        }
        value = next as u64;
    }
    (value, &[])
}

/// A number from `low`, which is 0 or 1, to `high`, and the bytes after it.
pub fn number(low: u64, high: u64, bytes: &[u8]) -> Result<(u64, &[u8]), Stop>
    ensures read { Gives (λ x. (x.0, x.1.now)) result ((number low high).read bytes.now) }
    ensures high { IfOk result (λ x. x.0 ≤ high) }
{
    match bytes {
        [first, rest @ ..] => {
            if *first == b'0' {
                if low == 0 {
                    return Ok((0, rest));
                }
                return Err(Stop::Left(bytes.len()));
            }
            if !is_digit(*first) {
                return Err(Stop::Left(bytes.len()));
            }
            let first = u64::from(*first - b'0');
            if first > high {
                return Err(Stop::Left(bytes.len()));
            }
            Ok(digits(high, first, rest))
        }
        [] => Err(Stop::Left(0)),
    }
}

/// A number from `-low` to `high`, and the bytes after it.
pub fn integer(low: u64, high: u64, bytes: &[u8]) -> Result<(i128, &[u8]), Stop>
    ensures { Gives (λ x. (x.0, x.1.now)) result ((integer low high).read bytes.now) }
{
    if is_next(bytes, b'-') {
        let rest = expect(bytes, b'-')?;
        let (number, rest) = number(1, low, rest)?;
        return Ok((-i128::from(number), rest));
    }
    let (number, rest) = number(0, high, bytes)?;
    Ok((i128::from(number), rest))
}

/// A number that is not below zero, and the bytes after it.
fn natural(high: u64, bytes: &[u8]) -> Result<(i128, &[u8]), Stop>
    ensures { Gives (λ x. (x.0, x.1.now)) result ((as_value pos (number 0 high)).read bytes.now) }
{
    let (number, rest) = number(0, high, bytes)?;
    Ok((i128::from(number), rest))
}

/// An integer of so many bits, and the bytes after it.
pub fn whole(width: Width, signed: bool, bytes: &[u8]) -> Result<(i128, &[u8]), Stop>
    ensures { Gives (λ x. (x.0, x.1.now)) result ((whole width signed).read bytes.now) }
{
    if signed {
        return match width {
            Width::Bits8 => integer(1 << 7, (1 << 7) - 1, bytes),
            Width::Bits16 => integer(1 << 15, (1 << 15) - 1, bytes),
            Width::Bits32 => integer(1 << 31, (1 << 31) - 1, bytes),
            Width::Bits64 => integer(1 << 63, (1 << 63) - 1, bytes),
        };
    }
    match width {
        Width::Bits8 => natural(u64::from(u8::MAX), bytes),
        Width::Bits16 => natural(u64::from(u16::MAX), bytes),
        Width::Bits32 => natural(u64::from(u32::MAX), bytes),
        Width::Bits64 => natural(u64::MAX, bytes),
    }
}

/// An index or a version, and the bytes after it.
pub fn index(bytes: &[u8]) -> Result<(u32, &[u8]), Stop>
    ensures { Gives (λ x. (x.0, x.1.now)) result (index.read bytes.now) }
{
    let (number, rest) = number(0, u64::from(u32::MAX), bytes)?;
    Ok((number as u32, rest))
}
