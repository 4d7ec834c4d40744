//! Numbers.

ghost use Rattle.std.specs.Prelude.{◌≡◌, ◌≤◌, ◌<◌, ◌^◌, true, IfSome, IfNone, take};
ghost use Rattle.std.specs.List.{list_all};
ghost use Rattle.mojom_lexer.specs.Bytes.{is_hex_digit};
ghost use Rattle.mojom_lexer.specs.Numbers.{is_number, has_leading_zero, number_value, is_hexadecimal, digit_value, value_from};
ghost use Rattle.mojom_lexer.specs.steps.Scans.{number_len};

use crate::bytes::{is_digit, is_hex_digit, run_len};

/// Whether `0x` or `0X` and a hexadecimal digit stand at the front.
fn begins_hexadecimal(bytes: &[u8]) -> bool
    ensures { result ≡ is_hexadecimal (take 3 bytes.now) }
{
    bytes.len() >= 3
        && bytes[0] == b'0'
        && (bytes[1] == b'x' || bytes[1] == b'X')
        && is_hex_digit(bytes[2])
}

/// How long the number at the front is.
#[tactic(auto, using(crate::proofs::Runs::run_within))]
pub fn number_len(bytes: &[u8]) -> usize
    ensures { result ≡ number_len bytes.now }
{
    if begins_hexadecimal(bytes) {
        return 2 + run_len(&bytes[2..], is_hex_digit);
    }
    run_len(bytes, is_digit)
}

/// Whether a 0 and another digit stand at the front.
pub fn has_leading_zero(bytes: &[u8]) -> bool
    ensures { result ≡ has_leading_zero bytes.now }
{
    bytes.len() >= 2 && bytes[0] == b'0' && is_digit(bytes[1])
}

/// The value of a hexadecimal digit.
fn digit_value(digit: u8) -> u8
    requires { is_hex_digit digit ≡ true }
    ensures value { result ≡ digit_value digit }
    ensures small { result < 16 }
{
    match digit {
        b'0'..=b'9' => digit - b'0',
        b'A'..=b'F' => 10 + (digit - b'A'),
        _ => 10 + (digit - b'a'),
    }
}

/// The value of the digits in the base; none exactly where it is 2 ^ 64 or more.
#[tactic(auto, using(crate::proofs::Values::step_at, crate::proofs::Values::large_at, crate::proofs::Values::large_times, crate::proofs::Values::digit_at))]
fn value_in(base: u8, digits: &[u8]) -> Option<u64>
    requires base { 0 < base }
    requires digits { list_all is_hex_digit digits.now ≡ true }
    ensures some { IfSome result (λ value. value ≡ value_from base 0 digits.now) }
    ensures none { IfNone result (2 ^ 64 ≤ value_from base 0 digits.now) }
{
    let mut value: u64 = 0;
    for byte in digits {
        let Some(shifted) = value.checked_mul(u64::from(base)) else {
            return None;
        };
        let Some(sum) = shifted.checked_add(u64::from(digit_value(*byte))) else {
            return None;
        };
        value = sum;
    }
    Some(value)
}

/// The value of a number; none exactly where it is 2 ^ 64 or more.
#[tactic(auto, using(crate::proofs::Numerals::number_front, crate::proofs::Numerals::hex_digits, crate::proofs::Numerals::decimal_digits))]
pub fn number_value(number: &[u8]) -> Option<u64>
    requires { is_number number.now ≡ true }
    ensures some { IfSome result (λ value. value ≡ number_value number.now) }
    ensures none { IfNone result (2 ^ 64 ≤ number_value number.now) }
{
    if begins_hexadecimal(number) {
        return value_in(16, &number[2..]);
    }
    value_in(10, number)
}
