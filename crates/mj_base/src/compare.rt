//! Whether bytes are a full name that is kept by its parts. The last part is compared with first, since names
//! of one module differ there.

ghost use Rattle.std.specs.Prelude.{◌≡◌, ◌≢◌, ◌++◌, ℕ, List, codes, MatchOption};
ghost use Rattle.std.specs.Str.{bytes_eq};
ghost use Rattle.mj_base.specs.Names.{within, named_in};

use crate::shared_text::SharedText;

/// What stands before a text, where the bytes end with it.
fn before<'a>(back: &str, bytes: &'a [u8]) -> Option<&'a [u8]>
    ensures { MatchOption result ((front : List ℕ) → bytes.now ≢ front ++ back.now) (λ front. bytes.now ≡ front.now ++ back.now) }
{
    bytes.strip_suffix(back.as_bytes())
}

/// What stands before a dot, where the bytes end with one.
fn before_dot(bytes: &[u8]) -> Option<&[u8]>
    ensures { MatchOption result ((front : List ℕ) → bytes.now ≢ front ++ codes ".") (λ front. bytes.now ≡ front.now ++ codes ".") }
{
    before(".", bytes)
}

/// The name of the thing in which something stands by this name, where the bytes are the name of that.
fn outer_of<'a>(name: &str, bytes: &'a [u8]) -> Option<&'a [u8]>
    ensures { MatchOption result ((outer : List ℕ) → bytes.now ≢ within outer name.now) (λ outer. bytes.now ≡ within outer.now name.now) }
{
    match before(name, bytes) {
        Some(rest) => before_dot(rest),
        None => None,
    }
}

/// Whether the bytes are the text.
fn is_text(text: &str, bytes: &[u8]) -> bool
    ensures { result ≡ bytes_eq text.now bytes.now }
{
    text.as_bytes() == bytes
}

/// Whether the bytes are the full name of what stands in another thing.
fn is_within(outer: &str, name: &str, bytes: &[u8]) -> bool
    ensures { result ≡ bytes_eq (within outer.now name.now) bytes.now }
{
    match outer_of(name, bytes) {
        Some(front) => is_text(outer, front),
        None => false,
    }
}

/// Whether the bytes are the full name of what may stand in another thing.
pub(crate) fn is_named_in(outer: &Option<SharedText>, name: &str, bytes: &[u8]) -> bool
    ensures { result ≡ bytes_eq (named_in outer.now name.now) bytes.now }
{
    match outer {
        Some(outer) => is_within(outer.as_str(), name, bytes),
        None => is_text(name, bytes),
    }
}

/// Whether the bytes are the full name of what stands in a thing that may stand in another.
pub(crate) fn is_nested(around: &Option<SharedText>, outer: &str, name: &str, bytes: &[u8]) -> bool
    ensures { result ≡ bytes_eq (within (named_in around.now outer.now) name.now) bytes.now }
{
    match outer_of(name, bytes) {
        Some(front) => is_named_in(around, outer, front),
        None => false,
    }
}
