//! Numbers.

ghost use Rattle.byte_rules.specs.Reading.{Gives};
ghost use Rattle.line_parts.specs.Ids.{wide, moment};

use byte_rules::{Stop, expect, is_next};
use value_text::number;

/// A number of 64 bits, and the bytes after it.
pub fn wide(bytes: &[u8]) -> Result<(u64, &[u8]), Stop>
    ensures { Gives (λ x. (x.0, x.1.now)) result (wide.read bytes.now) }
{
    let (number, rest) = number(0, u64::MAX, bytes)?;
    Ok((number, rest))
}

/// A moment, and the bytes after it.
#[tactic(auto, unfolding(crate::specs::Ids::moment))]
pub fn moment(bytes: &[u8]) -> Result<(i64, &[u8]), Stop>
    ensures { Gives (λ x. (x.0, x.1.now)) result (moment.read bytes.now) }
{
    if is_next(bytes, b'-') {
        let rest = expect(bytes, b'-')?;
        let (number, rest) = number(1, 1 << 63, rest)?;
        let below = -i128::from(number);
        return Ok((below as i64, rest));
    }
    let (number, rest) = number(0, (1 << 63) - 1, bytes)?;
    Ok((number as i64, rest))
}
