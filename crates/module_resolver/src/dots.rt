//! How many dots names have.

ghost use Rattle.std.specs.Prelude.{◌≡◌, ◌+◌, ◌<◌, ◌≤◌, ◌==◌, length, get_or, IfOk, if◌then◌else◌};
ghost use Rattle.module_resolver.specs.NameDots.{dots_in};

use std::alloc::AllocError;

/// One more where the byte at this place is a dot.
fn dots_to(bytes: &[u8], place: usize, count: usize) -> usize
    requires there { place < length bytes.now }
    requires small { count ≤ place }
    ensures { result ≡ count + (if get_or bytes.now place 0 == 46 then 1 else 0) }
{
    if bytes[place] == b'.' {
        count + 1
    } else {
        count
    }
}

/// How many dots stand among bytes.
fn dots_of(bytes: &[u8]) -> usize
    ensures { result ≡ dots_in bytes.now }
{
    let mut count = 0;
    for place in 0..bytes.len() {
        count = dots_to(bytes, place, count);
    }
    count
}

/// How many dots a text has.
pub(crate) fn dots_in(text: &str) -> usize
    ensures { result ≡ dots_in text.now }
{
    dots_of(text.as_bytes())
}

/// The sum of two counts; there is no memory for 2^64 things.
pub(crate) fn sum(one: usize, other: usize) -> Result<usize, AllocError>
    ensures { IfOk result (λ sum. sum ≡ one + other) }
{
    one.checked_add(other).ok_or(AllocError)
}

/// How many bytes, or dots, a name has in another, of which each has so many; there is no memory for 2^64.
pub(crate) fn count_within(outer: usize, name: usize) -> Result<usize, AllocError>
    ensures { IfOk result (λ count. count ≡ outer + name + 1) }
{
    let both = sum(outer, name)?;
    sum(both, 1)
}
