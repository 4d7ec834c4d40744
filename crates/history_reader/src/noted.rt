//! Replies about controls, up to the line's end.

ghost use Rattle.byte_rules.specs.Reading.{Gives};
ghost use Rattle.history_reader.specs.Noted.{version_or_none, control, queried, version, required, flushed, noted_after, flushing, notified_after};

use crate::reasons::ends;
use bind_model::{Noted, Notified, Told};
use byte_rules::{Stop, expect, is_next};
use value_text::index;

/// The word of a control that was consumed.
#[derive(Clone, Copy)]
pub(crate) enum NotedWord {
    Closed,
    Queried,
    Version,
    Required,
    Flushed,
}

/// The word of a control that was written.
#[derive(Clone, Copy)]
pub(crate) enum NotifiedWord {
    Asking,
    Requiring,
    Flushing,
}

/// A version, and the bytes after it; `-` for none.
#[tactic(auto, unfolding(crate::specs::Noted::version_or_none))]
fn version_or_none(bytes: &[u8]) -> Result<(Option<u32>, &[u8]), Stop>
    ensures { Gives (λ x. (x.0, x.1.now)) result (version_or_none.read bytes.now) }
{
    if is_next(bytes, b'-') {
        let rest = expect(bytes, b'-')?;
        return Ok((None, rest));
    }
    let (version, rest) = index(bytes)?;
    Ok((Some(version), rest))
}

/// The endpoint whose peer is closed.
#[tactic(auto, unfolding(crate::specs::Noted::control))]
fn control(bytes: &[u8]) -> Result<(Told, &[u8]), Stop>
    ensures { Gives (λ x. (x.0, x.1.now)) result (control.read bytes.now) }
{
    let rest = expect(bytes, b' ')?;
    let (id, rest) = index(rest)?;
    ends(Told::Control(Noted::Closed(id)), rest)
}

/// The endpoint whose version was asked for, and the version.
#[tactic(auto, unfolding(crate::specs::Noted::queried))]
fn queried(bytes: &[u8]) -> Result<(Told, &[u8]), Stop>
    ensures { Gives (λ x. (x.0, x.1.now)) result (queried.read bytes.now) }
{
    let rest = expect(bytes, b' ')?;
    let (id, rest) = index(rest)?;
    let rest = expect(rest, b' ')?;
    let (version, rest) = version_or_none(rest)?;
    ends(Told::Control(Noted::Queried(id, version)), rest)
}

/// The endpoint whose version is told, and the version.
#[tactic(auto, unfolding(crate::specs::Noted::version))]
fn version(bytes: &[u8]) -> Result<(Told, &[u8]), Stop>
    ensures { Gives (λ x. (x.0, x.1.now)) result (version.read bytes.now) }
{
    let rest = expect(bytes, b' ')?;
    let (id, rest) = index(rest)?;
    let rest = expect(rest, b' ')?;
    let (version, rest) = index(rest)?;
    ends(Told::Control(Noted::Version(id, version)), rest)
}

/// The endpoint of which a version was required, and the version.
#[tactic(auto, unfolding(crate::specs::Noted::required))]
fn required(bytes: &[u8]) -> Result<(Told, &[u8]), Stop>
    ensures { Gives (λ x. (x.0, x.1.now)) result (required.read bytes.now) }
{
    let rest = expect(bytes, b' ')?;
    let (id, rest) = index(rest)?;
    let rest = expect(rest, b' ')?;
    let (version, rest) = index(rest)?;
    ends(Told::Control(Noted::Required(id, version)), rest)
}

/// The number of a flush that was consumed.
#[tactic(auto, unfolding(crate::specs::Noted::flushed))]
fn flushed(bytes: &[u8]) -> Result<(Told, &[u8]), Stop>
    ensures { Gives (λ x. (x.0, x.1.now)) result (flushed.read bytes.now) }
{
    let rest = expect(bytes, b' ')?;
    let (flush, rest) = index(rest)?;
    ends(Told::Control(Noted::Flushed(flush)), rest)
}

/// What stands behind the word of a control that was consumed.
pub(crate) fn noted_after(word: NotedWord, bytes: &[u8]) -> Result<(Told, &[u8]), Stop>
    ensures { Gives (λ x. (x.0, x.1.now)) result ((noted_after word).read bytes.now) }
{
    match word {
        NotedWord::Closed => control(bytes),
        NotedWord::Queried => queried(bytes),
        NotedWord::Version => version(bytes),
        NotedWord::Required => required(bytes),
        NotedWord::Flushed => flushed(bytes),
    }
}

/// The number of a flush that was written.
#[tactic(auto, unfolding(crate::specs::Noted::flushing))]
fn flushing(bytes: &[u8]) -> Result<(Told, &[u8]), Stop>
    ensures { Gives (λ x. (x.0, x.1.now)) result (flushing.read bytes.now) }
{
    let rest = expect(bytes, b' ')?;
    let (flush, rest) = index(rest)?;
    ends(Told::Notified(Notified::Flushing(flush)), rest)
}

/// What stands behind the word of a control that was written.
pub(crate) fn notified_after(word: NotifiedWord, bytes: &[u8]) -> Result<(Told, &[u8]), Stop>
    ensures { Gives (λ x. (x.0, x.1.now)) result ((notified_after word).read bytes.now) }
{
    match word {
        NotifiedWord::Asking => ends(Told::Notified(Notified::Asking), bytes),
        NotifiedWord::Requiring => ends(Told::Notified(Notified::Requiring), bytes),
        NotifiedWord::Flushing => flushing(bytes),
    }
}
