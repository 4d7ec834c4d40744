//! The arrow between a command and its reply.

ghost use Rattle.byte_rules.specs.Reading.{Gives};
ghost use Rattle.history_reader.specs.Arrows.{arrow, asks, arrow_behind, asks_behind};

use bind_model::Asked;
use byte_rules::{Stop, expect};

/// The bytes after the arrow.
#[tactic(auto, unfolding(crate::specs::Arrows::arrow))]
fn arrow(bytes: &[u8]) -> Result<&[u8], Stop>
    ensures { Gives (λ rest. (tt, rest.now)) result (arrow.read bytes.now) }
{
    let rest = expect(bytes, b' ')?;
    let rest = expect(rest, b'-')?;
    let rest = expect(rest, b'>')?;
    let rest = expect(rest, b' ')?;
    Ok(rest)
}

/// The bytes after the arrow, with what was asked.
pub(crate) fn asks(asked: Asked, bytes: &[u8]) -> Result<(Asked, &[u8]), Stop>
    ensures { Gives (λ x. (x.0, x.1.now)) result ((asks asked).read bytes.now) }
{
    let rest = arrow(bytes)?;
    Ok((asked, rest))
}

/// The bytes after the arrow, where its first blank is read already.
#[tactic(auto, unfolding(crate::specs::Arrows::arrow_behind))]
fn arrow_behind(bytes: &[u8]) -> Result<&[u8], Stop>
    ensures { Gives (λ rest. (tt, rest.now)) result (arrow_behind.read bytes.now) }
{
    let rest = expect(bytes, b'-')?;
    let rest = expect(rest, b'>')?;
    let rest = expect(rest, b' ')?;
    Ok(rest)
}

/// The bytes after the arrow, where its first blank is read already, with what was asked.
pub(crate) fn asks_behind(asked: Asked, bytes: &[u8]) -> Result<(Asked, &[u8]), Stop>
    ensures { Gives (λ x. (x.0, x.1.now)) result ((asks_behind asked).read bytes.now) }
{
    let rest = arrow_behind(bytes)?;
    Ok((asked, rest))
}
