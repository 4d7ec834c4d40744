//! Replies, up to the line's end.

ghost use Rattle.byte_rules.specs.Reading.{Gives};
ghost use Rattle.line_parts.specs.Keywords.{keyword};
ghost use Rattle.history_reader.specs.Replies.{reply_words, message_side, got_lists, got, got_at, made, bound, associated, attached, sent, wrote};
ghost use Rattle.history_reader.specs.Replies.{dropped, bad_reply, gone_reply, told_after, told};

use crate::flowed::{FlowedWord, flowed_after};
use crate::noted::{NotedWord, NotifiedWord, noted_after, notified_after};
use crate::reasons::{bad, ends, refusal};
use bind_model::{Got, KeptParameters, Told};
use byte_rules::{Stop, expect};
use line_parts::hexadecimal::hexadecimal;
use line_parts::ids::{end, pending};
use line_parts::keywords::keyword;
use line_parts::lists::{pendings, things};
use line_parts::messages::message;
use line_parts::names::Names;
use line_parts::numbers::{moment, wide};
use mj_schema::Schema;
use std::alloc::Global;
use value_text::index;
use wire_model::{MessageSide, Target};

/// The word that a reply begins with; of what a take got, true where a moment follows.
#[derive(Clone, Copy)]
pub(crate) enum ReplyWord {
    Made,
    Bound,
    Associated,
    Attached,
    Sent,
    Wrote,
    Got(bool),
    Dropped,
    Control(NotedWord),
    Bad,
    Closed,
    Notified(NotifiedWord),
    Pausing,
    Flowed(FlowedWord),
    Skipped,
    No,
}

/// The ends of a new pipe, or a new token.
#[tactic(auto, unfolding(crate::specs::Replies::made))]
fn made(alloc: Global, bytes: &[u8]) -> Result<(Told, &[u8]), Stop>
    ensures { Gives (λ x. (x.0, x.1.now)) result (made.read bytes.now) }
{
    let rest = expect(bytes, b' ')?;
    let (items, rest) = things(alloc, rest)?;
    ends(Told::Made(items), rest)
}

/// The end that is bound.
#[tactic(auto, unfolding(crate::specs::Replies::bound))]
fn bound(bytes: &[u8]) -> Result<(Told, &[u8]), Stop>
    ensures { Gives (λ x. (x.0, x.1.now)) result (bound.read bytes.now) }
{
    let rest = expect(bytes, b' ')?;
    let (end, rest) = end(rest)?;
    ends(Told::Bound(end), rest)
}

/// The other half of a new endpoint.
#[tactic(auto, unfolding(crate::specs::Replies::associated))]
fn associated(bytes: &[u8]) -> Result<(Told, &[u8]), Stop>
    ensures { Gives (λ x. (x.0, x.1.now)) result (associated.read bytes.now) }
{
    let rest = expect(bytes, b' ')?;
    let (pending, rest) = pending(rest)?;
    ends(Told::Associated(pending), rest)
}

/// The id of an endpoint that is bound.
#[tactic(auto, unfolding(crate::specs::Replies::attached))]
fn attached(bytes: &[u8]) -> Result<(Told, &[u8]), Stop>
    ensures { Gives (λ x. (x.0, x.1.now)) result (attached.read bytes.now) }
{
    let rest = expect(bytes, b' ')?;
    let (id, rest) = index(rest)?;
    ends(Told::Attached(id), rest)
}

/// A request id, and the bytes that were sent.
#[tactic(auto, unfolding(crate::specs::Replies::sent))]
fn sent(alloc: Global, bytes: &[u8]) -> Result<(Told, &[u8]), Stop>
    ensures { Gives (λ x. (x.0, x.1.now)) result (sent.read bytes.now) }
{
    let rest = expect(bytes, b' ')?;
    let (request, rest) = wide(rest)?;
    let rest = expect(rest, b' ')?;
    let (message, rest) = hexadecimal(alloc, b'\n', rest)?;
    Ok((Told::Sent(request, message), rest))
}

/// The end that was written to.
#[tactic(auto, unfolding(crate::specs::Replies::wrote))]
fn wrote(bytes: &[u8]) -> Result<(Told, &[u8]), Stop>
    ensures { Gives (λ x. (x.0, x.1.now)) result (wrote.read bytes.now) }
{
    let rest = expect(bytes, b' ')?;
    let (end, rest) = end(rest)?;
    ends(Told::Wrote(end), rest)
}

/// The endpoint of a message that nobody got, and what went with it.
#[tactic(auto, unfolding(crate::specs::Replies::dropped))]
fn dropped(alloc: Global, bytes: &[u8]) -> Result<(Told, &[u8]), Stop>
    ensures { Gives (λ x. (x.0, x.1.now)) result (dropped.read bytes.now) }
{
    let rest = expect(bytes, b' ')?;
    let (id, rest) = index(rest)?;
    let rest = expect(rest, b' ')?;
    let (gone, rest) = things(alloc, rest)?;
    ends(Told::Dropped(id, gone), rest)
}

/// Why a message is bad, and what went.
#[tactic(auto, unfolding(crate::specs::Replies::bad_reply))]
fn bad_reply(alloc: Global, bytes: &[u8]) -> Result<(Told, &[u8]), Stop>
    ensures { Gives (λ x. (x.0, x.1.now)) result (bad_reply.read bytes.now) }
{
    let rest = expect(bytes, b' ')?;
    let (why, rest) = bad(rest)?;
    let rest = expect(rest, b' ')?;
    let (gone, rest) = things(alloc, rest)?;
    ends(Told::Bad(why, gone), rest)
}

/// What went.
#[tactic(auto, unfolding(crate::specs::Replies::gone_reply))]
fn gone_reply(alloc: Global, bytes: &[u8]) -> Result<(Told, &[u8]), Stop>
    ensures { Gives (λ x. (x.0, x.1.now)) result (gone_reply.read bytes.now) }
{
    let rest = expect(bytes, b' ')?;
    let (gone, rest) = things(alloc, rest)?;
    ends(Told::Closed(gone), rest)
}

/// A side of a method, and the bytes after it.
#[tactic(auto, unfolding(crate::specs::Replies::message_side))]
fn message_side(bytes: &[u8]) -> Result<(MessageSide, &[u8]), Stop>
    ensures { Gives (λ x. (x.0, x.1.now)) result (message_side.read bytes.now) }
{
    let sides = [
        (MessageSide::Request, "request"),
        (MessageSide::Response, "response"),
    ];
    keyword(&sides, bytes)
}

/// The lists of what a take got, with what stood before them, and the bytes after the line's end.
#[tactic(auto, unfolding(crate::specs::Replies::got_lists))]
fn got_lists<'a>(
    alloc: Global,
    moment: Option<i64>,
    id: u32,
    target: Target,
    parameters: KeptParameters,
    request: u64,
    bytes: &'a [u8],
) -> Result<(Told, &'a [u8]), Stop>
    ensures { Gives (λ x. (x.0, x.1.now)) result ((got_lists moment id (target, parameters) request).read bytes.now) }
{
    let (handles, rest) = things(alloc, bytes)?;
    let rest = expect(rest, b' ')?;
    let (pendings, rest) = pendings(alloc, rest)?;
    let rest = expect(rest, b' ')?;
    let (gone, rest) = things(alloc, rest)?;
    let got = Got::apart(
        alloc, id, target, parameters, request, handles, pendings, gone, moment,
    )?;
    let rest = expect(rest, b'\n')?;
    Ok((Told::Taken(got), rest))
}

/// What a take got at this moment, which stands before it, and the bytes after the line's end.
#[tactic(auto, unfolding(crate::specs::Replies::got))]
fn got<'a>(
    alloc: Global,
    schema: &Schema,
    names: &Names,
    moment: Option<i64>,
    bytes: &'a [u8],
) -> Result<(Told, &'a [u8]), Stop>
    ensures { Gives (λ x. (x.0, x.1.now)) result ((got schema.now names.now moment).read bytes.now) }
{
    let rest = expect(bytes, b' ')?;
    let (side, rest) = message_side(rest)?;
    let rest = expect(rest, b' ')?;
    let (id, rest) = index(rest)?;
    let rest = expect(rest, b' ')?;
    let (target, parameters, rest) = message(alloc, schema, names, side, rest)?;
    let (request, rest) = wide(rest)?;
    let rest = expect(rest, b' ')?;
    got_lists(alloc, moment, id, target, parameters, request, rest)
}

/// A moment, what a take got then, and the bytes after the line's end.
#[tactic(auto, unfolding(crate::specs::Replies::got_at))]
fn got_at<'a>(
    alloc: Global,
    schema: &Schema,
    names: &Names,
    bytes: &'a [u8],
) -> Result<(Told, &'a [u8]), Stop>
    ensures { Gives (λ x. (x.0, x.1.now)) result ((got_at schema.now names.now).read bytes.now) }
{
    let rest = expect(bytes, b' ')?;
    let (moment, rest) = moment(rest)?;
    got(alloc, schema, names, Some(moment), rest)
}

/// What stands behind the word of a reply, and the bytes after the line's end.
fn told_after<'a>(
    alloc: Global,
    schema: &Schema,
    names: &Names,
    word: ReplyWord,
    bytes: &'a [u8],
) -> Result<(Told, &'a [u8]), Stop>
    ensures { Gives (λ x. (x.0, x.1.now)) result ((told_after schema.now names.now word).read bytes.now) }
{
    match word {
        ReplyWord::Made => made(alloc, bytes),
        ReplyWord::Bound => bound(bytes),
        ReplyWord::Associated => associated(bytes),
        ReplyWord::Attached => attached(bytes),
        ReplyWord::Sent => sent(alloc, bytes),
        ReplyWord::Wrote => wrote(bytes),
        ReplyWord::Got(false) => got(alloc, schema, names, None, bytes),
        ReplyWord::Got(true) => got_at(alloc, schema, names, bytes),
        ReplyWord::Dropped => dropped(alloc, bytes),
        ReplyWord::Control(word) => noted_after(word, bytes),
        ReplyWord::Bad => bad_reply(alloc, bytes),
        ReplyWord::Closed => gone_reply(alloc, bytes),
        ReplyWord::Notified(word) => notified_after(word, bytes),
        ReplyWord::Pausing => ends(Told::Pausing, bytes),
        ReplyWord::Flowed(word) => flowed_after(alloc, word, bytes),
        ReplyWord::Skipped => ends(Told::Skipped, bytes),
        ReplyWord::No => refusal(bytes),
    }
}

/// The word of a reply, and the bytes after it.
fn reply_word(bytes: &[u8]) -> Result<(ReplyWord, &[u8]), Stop>
    ensures { Gives (λ x. (x.0, x.1.now)) result ((keyword reply_words).read bytes.now) }
{
    let words = [
        (ReplyWord::Made, "made"),
        (ReplyWord::Bound, "bound"),
        (ReplyWord::Associated, "associated"),
        (ReplyWord::Attached, "attached"),
        (ReplyWord::Sent, "sent"),
        (ReplyWord::Wrote, "wrote"),
        (ReplyWord::Got(false), "got"),
        (ReplyWord::Got(true), "got-at"),
        (ReplyWord::Dropped, "dropped"),
        (ReplyWord::Control(NotedWord::Closed), "control"),
        (ReplyWord::Control(NotedWord::Queried), "queried"),
        (ReplyWord::Control(NotedWord::Version), "version"),
        (ReplyWord::Control(NotedWord::Required), "required"),
        (ReplyWord::Control(NotedWord::Flushed), "flushed"),
        (ReplyWord::Bad, "bad"),
        (ReplyWord::Closed, "closed"),
        (ReplyWord::Notified(NotifiedWord::Asking), "asking"),
        (ReplyWord::Notified(NotifiedWord::Requiring), "requiring"),
        (ReplyWord::Notified(NotifiedWord::Flushing), "flushing"),
        (ReplyWord::Pausing, "pausing"),
        (ReplyWord::Flowed(FlowedWord::Put), "put"),
        (ReplyWord::Flowed(FlowedWord::Bytes), "got-bytes"),
        (ReplyWord::Flowed(FlowedWord::Space), "space"),
        (ReplyWord::Flowed(FlowedWord::View), "view"),
        (ReplyWord::Flowed(FlowedWord::Ended), "ended"),
        (ReplyWord::Skipped, "skipped"),
        (ReplyWord::No, "no"),
    ];
    keyword(&words, bytes)
}

/// A reply, and the bytes after the line's end.
#[tactic(auto, unfolding(crate::specs::Replies::told))]
pub(crate) fn told<'a>(
    alloc: Global,
    schema: &Schema,
    names: &Names,
    bytes: &'a [u8],
) -> Result<(Told, &'a [u8]), Stop>
    ensures { Gives (λ x. (x.0, x.1.now)) result ((told schema.now names.now).read bytes.now) }
{
    let (word, rest) = reply_word(bytes)?;
    told_after(alloc, schema, names, word, rest)
}
