//! Strings where they lie.

ghost use Rattle.std.specs.Prelude.{◌≡◌, length};
ghost use Rattle.wire_model.specs.Texts.{valid_len};

use std::str::from_utf8;

/// The bytes of a string, which are UTF-8.
#[derive(Clone, Copy)]
pub struct Utf8<'a> {
    bytes: &'a [u8],
    ghost valid: { valid_len bytes.now ≡ length bytes.now },
}

impl<'a> Utf8<'a> {
    /// The string of these bytes.
    pub(crate) fn new(bytes: &'a [u8]) -> Utf8<'a>
        requires { valid_len bytes.now ≡ length bytes.now }
        ensures { result.bytes.now ≡ bytes.now }
    {
        Utf8 { bytes }
    }

    /// Its bytes.
    pub fn as_bytes(&self) -> &'a [u8]
        ensures { result.now ≡ self.now.bytes.now }
    {
        self.bytes
    }

    /// The string itself, which takes a pass over its bytes.
    pub fn as_str(&self) -> &'a str
        ensures { result.now ≡ self.now.bytes.now }
    {
        whole(self.bytes)
    }
}

/// Bytes that are UTF-8, as a string.
#[tactic(auto, using(crate::proofs::Strings::never))]
fn whole(text: &[u8]) -> &str
    requires { valid_len text.now ≡ length text.now }
    ensures { result.now ≡ text.now }
{
    match from_utf8(text) {
        Ok(text) => text,
        Err(_) => unreachable!(),
    }
}
