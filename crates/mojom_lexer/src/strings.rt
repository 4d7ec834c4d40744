//! Strings.

ghost use Rattle.std.specs.Prelude.{◌≡◌, ◌+◌, ◌<◌, ◌^◌, false, length, IfOk, IfErr, Ok};
ghost use Rattle.mojom_lexer.specs.Strings.{escaped, text_of};
ghost use Rattle.mojom_lexer.specs.steps.Scans.{before_quote, parts_of, IsBadEscape};

use crate::error::LexError;
use mj_base::Items;
use std::alloc::Global;

/// How many bytes stand before the closing quote, where the line has one.
pub fn before_quote(bytes: &[u8]) -> Option<usize>
    ensures { result ≡ before_quote false bytes.now }
{
    let mut after_backslash = false;
    for (len, byte) in bytes.iter().enumerate() {
        if *byte == b'\n' {
            return None;
        }
        if *byte == b'"' && !after_backslash {
            return Some(len);
        }
        after_backslash = *byte == b'\\' && !after_backslash;
    }
    None
}

/// The byte that an escape stands for.
fn escaped(byte: u8) -> Option<u8>
    ensures { result ≡ escaped byte }
{
    match byte {
        b'"' => Some(b'"'),
        b'\\' => Some(b'\\'),
        b'n' => Some(b'\n'),
        b't' => Some(b'\t'),
        _ => None,
    }
}

/// What the bytes between quotes stand for; the place of the first bad escape is counted from `at`,
/// the place of the opening quote.
pub fn text(alloc: Global, at: u64, inside: &[u8]) -> Result<Items<u8>, LexError>
    requires { at + length inside.now < 2 ^ 64 }
    ensures ok { IfOk result (λ text. text_of 1 (parts_of false inside.now) ≡ Ok text) }
    ensures refused { IfErr result (IsBadEscape at (parts_of false inside.now)) }
{
    let mut text = Vec::new(alloc);
    let mut after_backslash = false;
    for (len, byte) in inside.iter().enumerate() {
        if after_backslash {
            let Some(meant) = escaped(*byte) else {
                return Err(LexError::BadChar(at + len as u64));
            };
            text.push(meant)?;
            after_backslash = false;
        } else if *byte == b'\\' {
            after_backslash = true;
        } else {
            text.push(*byte)?;
        }
    }
    Ok(Items::from_vec(text))
}
