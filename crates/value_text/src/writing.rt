//! The parts of a text.

ghost use Rattle.std.specs.Prelude.{◌≡◌, ◌++◌, ◌∷◌, OnOk, ◌<◌, decimal};
ghost use Rattle.std.specs.Fmt.{signed_decimal};
ghost use Rattle.std.specs.List.{flat_map};
ghost use Rattle.value_text.specs.Escapes.{escaped, quoted, hex_digit};
ghost use Rattle.value_text.specs.Signs.{at_sign};

use std::alloc::{AllocError, Global};

/// Adds a whole number in decimal.
pub fn push_whole(alloc: Global, out: &mut Vec<u8>, number: i128) -> Result<(), AllocError>
    ensures { OnOk result (out.new.items ≡ out.old.items ++ signed_decimal number) }
{
    let text = number.to_string(alloc)?;
    out.extend_from_slice(text.as_bytes())
}

/// Adds a sign and an index.
pub fn push_index(alloc: Global, out: &mut Vec<u8>, sign: u8, index: u32) -> Result<(), AllocError>
    ensures { OnOk result (out.new.items ≡ out.old.items ++ sign ∷ decimal index) }
{
    out.push(sign)?;
    let text = index.to_string(alloc)?;
    out.extend_from_slice(text.as_bytes())
}

/// Adds a sign, an index and a version.
pub fn push_versioned(
    alloc: Global,
    out: &mut Vec<u8>,
    sign: u8,
    index: u32,
    version: u32,
) -> Result<(), AllocError>
    ensures { OnOk result (out.new.items ≡ out.old.items ++ sign ∷ (decimal index ++ at_sign ∷ decimal version)) }
{
    push_index(alloc, out, sign, index)?;
    push_index(alloc, out, b'@', version)
}

/// A hexadecimal digit, in lower case.
fn hex_digit(digit: u8) -> u8
    requires { digit < 16 }
    ensures { result ≡ hex_digit digit }
{
    if digit < 10 { b'0' + digit } else { 87 + digit }
}

/// Adds a byte of a text as it stands between quotes.
#[tactic(auto, unfolding(crate::specs::Escapes::escaped))]
fn push_escaped(out: &mut Vec<u8>, byte: u8) -> Result<(), AllocError>
    ensures { OnOk result (out.new.items ≡ out.old.items ++ escaped byte) }
{
    if byte == b'"' {
        return out.extend_from_slice(&[b'\\', b'"']);
    }
    if byte == b'\\' {
        return out.extend_from_slice(&[b'\\', b'\\']);
    }
    if byte < 32 {
        return out.extend_from_slice(&[b'\\', b'x', b'0' + byte / 16, hex_digit(byte % 16)]);
    }
    out.extend_from_slice(&[byte])
}

/// Adds a text between quotes.
pub fn push_text(out: &mut Vec<u8>, text: &[u8]) -> Result<(), AllocError>
    ensures { OnOk result (out.new.items ≡ out.old.items ++ quoted text.now) }
{
    out.extend_from_slice(&[b'"'])?;
    push_all_escaped(out, text)?;
    out.extend_from_slice(&[b'"'])
}

/// Adds the bytes of a text as they stand between quotes.
fn push_all_escaped(out: &mut Vec<u8>, text: &[u8]) -> Result<(), AllocError>
    ensures { OnOk result (out.new.items ≡ out.old.items ++ flat_map escaped text.now) }
{
    for byte in text {
        push_escaped(out, *byte)?;
    }
    Ok(())
}
