//! Commands about controls: a version is asked for or required, a flush is written, an end is paused.

ghost use Rattle.byte_rules.specs.Reading.{Gives};
ghost use Rattle.history_reader.specs.Notices.{query, require, flush, notice_after, wait, pause};

use crate::arrows::asks;
use bind_model::{Asked, Notice};
use byte_rules::{Stop, expect};
use line_parts::ids::{end, endpoint};
use mj_base::EndId;
use value_text::index;

/// The word of a command that writes a control.
#[derive(Clone, Copy)]
pub(crate) enum NoticeWord {
    Query,
    Require,
    Flush,
}

/// The endpoint whose version is asked for.
#[tactic(auto, unfolding(crate::specs::Notices::query))]
fn query(bytes: &[u8]) -> Result<(Asked, &[u8]), Stop>
    ensures { Gives (λ x. (x.0, x.1.now)) result (query.read bytes.now) }
{
    let rest = expect(bytes, b' ')?;
    let ((end, id), rest) = endpoint(rest)?;
    asks(Asked::Notify(end, Notice::Query(id)), rest)
}

/// The endpoint of which a version is required, and that version.
#[tactic(auto, unfolding(crate::specs::Notices::require))]
fn require(bytes: &[u8]) -> Result<(Asked, &[u8]), Stop>
    ensures { Gives (λ x. (x.0, x.1.now)) result (require.read bytes.now) }
{
    let rest = expect(bytes, b' ')?;
    let ((end, id), rest) = endpoint(rest)?;
    let rest = expect(rest, b' ')?;
    let (version, rest) = index(rest)?;
    asks(Asked::Notify(end, Notice::Require(id, version)), rest)
}

/// The end that a flush is written from.
#[tactic(auto, unfolding(crate::specs::Notices::flush))]
fn flush(bytes: &[u8]) -> Result<(Asked, &[u8]), Stop>
    ensures { Gives (λ x. (x.0, x.1.now)) result (flush.read bytes.now) }
{
    let rest = expect(bytes, b' ')?;
    let (end, rest) = end(rest)?;
    asks(Asked::Notify(end, Notice::Flush), rest)
}

/// What stands behind the word of a command that writes a control.
pub(crate) fn notice_after(word: NoticeWord, bytes: &[u8]) -> Result<(Asked, &[u8]), Stop>
    ensures { Gives (λ x. (x.0, x.1.now)) result ((notice_after word).read bytes.now) }
{
    match word {
        NoticeWord::Query => query(bytes),
        NoticeWord::Require => require(bytes),
        NoticeWord::Flush => flush(bytes),
    }
}

/// An end that a flush is awaited at, and the flush's number.
#[tactic(auto, unfolding(crate::specs::Notices::wait))]
fn wait(bytes: &[u8]) -> Result<((EndId, u32), &[u8]), Stop>
    ensures { Gives (λ x. (x.0, x.1.now)) result (wait.read bytes.now) }
{
    let (end, rest) = end(bytes)?;
    let rest = expect(rest, b' ')?;
    let (flush, rest) = index(rest)?;
    Ok(((end, flush), rest))
}

/// The end that is paused, and what it waits for.
#[tactic(auto, unfolding(crate::specs::Notices::pause))]
pub(crate) fn pause(bytes: &[u8]) -> Result<(Asked, &[u8]), Stop>
    ensures { Gives (λ x. (x.0, x.1.now)) result (pause.read bytes.now) }
{
    let rest = expect(bytes, b' ')?;
    let (end, rest) = end(rest)?;
    let rest = expect(rest, b' ')?;
    let ((other, flush), rest) = wait(rest)?;
    asks(Asked::Pause(end, other, flush), rest)
}
