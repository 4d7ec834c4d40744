//! Words that are known beforehand.

ghost use Rattle.std.specs.Prelude.{map};
ghost use Rattle.byte_rules.specs.Reading.{Gives};
ghost use Rattle.line_parts.specs.Keywords.{keyword, word};

use byte_rules::{Stop, nearer};

/// The value of the word of a table that the bytes begin with, and the bytes after it.
pub fn keyword<'a, T: Copy>(table: &[(T, &str)], bytes: &'a [u8]) -> Result<(T, &'a [u8]), Stop>
    ensures { Gives (λ x. (x.0, x.1.now)) result ((keyword (map (λ entry. (entry.0, entry.1.now)) table.now)).read bytes.now) }
{
    let mut near = (0, None);
    for (value, text) in table {
        near = nearer(near, *value, text.as_bytes(), bytes);
    }
    match near.1 {
        Some(value) => Ok((value, &bytes[near.0..])),
        None => Err(Stop::Left(bytes.len() - near.0)),
    }
}

/// The bytes after this word.
pub fn word<'a>(text: &str, bytes: &'a [u8]) -> Result<&'a [u8], Stop>
    ensures { Gives (λ rest. (tt, rest.now)) result ((word text.now).read bytes.now) }
{
    let ((), rest) = keyword(&[((), text)], bytes)?;
    Ok(rest)
}
