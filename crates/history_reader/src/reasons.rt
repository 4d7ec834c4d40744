//! Why a command is refused, and why a message is bad.

ghost use Rattle.byte_rules.specs.Lang.{closed};
ghost use Rattle.byte_rules.specs.Reading.{Gives};
ghost use Rattle.line_parts.specs.Signs.{line_end};
ghost use Rattle.line_parts.specs.Keywords.{keyword};
ghost use Rattle.history_reader.specs.Reasons.{why_words, bad_words, part_after, why_after, refusal, bad_after, bad};

use bind_model::{BadWhy, Told, Why};
use byte_rules::{Stop, expect};
use line_parts::ids::{end, sequence, token};
use line_parts::keywords::keyword;
use line_parts::numbers::wide;
use mj_base::{Fault, FaultKind};
use value_text::index;

/// What a refusal says behind its word.
#[derive(Clone, Copy)]
pub(crate) enum WhyPart {
    Unbound,
    Elsewhere,
    WrongPipe,
    Paused,
    BadSize,
    Busy,
    Short,
}

/// The word that a refusal begins with: all of it, or what something follows.
#[derive(Clone, Copy)]
pub(crate) enum WhyWord {
    Plain(Why),
    Of(WhyPart),
}

/// The word that the reason of a bad message begins with.
#[derive(Clone, Copy)]
pub(crate) enum BadWord {
    Fault(FaultKind),
    Unasked,
    StrangeId,
    TooOld,
}

/// The bytes after the line's end, with what was told.
pub(crate) fn ends(told: Told, bytes: &[u8]) -> Result<(Told, &[u8]), Stop>
    ensures { Gives (λ x. (x.0, x.1.now)) result ((closed line_end told).read bytes.now) }
{
    let rest = expect(bytes, b'\n')?;
    Ok((told, rest))
}

/// The word of a refusal, and the bytes after it.
fn why_word(bytes: &[u8]) -> Result<(WhyWord, &[u8]), Stop>
    ensures { Gives (λ x. (x.0, x.1.now)) result ((keyword why_words).read bytes.now) }
{
    let words = [
        (WhyWord::Plain(Why::NoName), "no-name"),
        (WhyWord::Plain(Why::NotPipe), "not-pipe"),
        (WhyWord::Plain(Why::Disconnected), "disconnected"),
        (WhyWord::Of(WhyPart::Unbound), "unbound"),
        (WhyWord::Of(WhyPart::Elsewhere), "elsewhere"),
        (WhyWord::Plain(Why::WrongSide), "wrong-side"),
        (WhyWord::Plain(Why::WrongMethod), "wrong-method"),
        (WhyWord::Plain(Why::WrongTokens), "wrong-tokens"),
        (WhyWord::Of(WhyPart::WrongPipe), "wrong-pipe"),
        (WhyWord::Plain(Why::SelfSend), "self-send"),
        (WhyWord::Plain(Why::TooLong), "too-long"),
        (WhyWord::Plain(Why::TooManyHandles), "too-many-handles"),
        (WhyWord::Plain(Why::Full), "full"),
        (WhyWord::Plain(Why::Empty), "empty"),
        (WhyWord::Plain(Why::PeerClosed), "peer-closed"),
        (WhyWord::Of(WhyPart::Paused), "paused"),
        (WhyWord::Plain(Why::SelfPause), "self-pause"),
        (WhyWord::Of(WhyPart::BadSize), "bad-size"),
        (WhyWord::Plain(Why::NotData), "not-data"),
        (WhyWord::Of(WhyPart::Busy), "busy"),
        (WhyWord::Plain(Why::Idle), "idle"),
        (WhyWord::Of(WhyPart::Short), "short"),
    ];
    keyword(&words, bytes)
}

/// What a refusal says behind its word and a blank.
#[tactic(auto, unfolding(crate::specs::Reasons::part_after))]
fn part_after(part: WhyPart, bytes: &[u8]) -> Result<(Told, &[u8]), Stop>
    ensures { Gives (λ x. (x.0, x.1.now)) result ((part_after part).read bytes.now) }
{
    match part {
        WhyPart::Unbound => {
            let (id, rest) = index(bytes)?;
            ends(Told::No(Why::Unbound(id)), rest)
        }
        WhyPart::Elsewhere => {
            let (seq, rest) = sequence(bytes)?;
            ends(Told::No(Why::Elsewhere(seq)), rest)
        }
        WhyPart::WrongPipe => {
            let (id, rest) = index(bytes)?;
            ends(Told::No(Why::WrongPipe(id)), rest)
        }
        WhyPart::Paused => {
            let (end, rest) = end(bytes)?;
            ends(Told::No(Why::Paused(end)), rest)
        }
        WhyPart::BadSize => {
            let (size, rest) = index(bytes)?;
            ends(Told::No(Why::BadSize(size)), rest)
        }
        WhyPart::Busy => {
            let (token, rest) = token(bytes)?;
            ends(Told::No(Why::Busy(token)), rest)
        }
        WhyPart::Short => {
            let (count, rest) = index(bytes)?;
            ends(Told::No(Why::Short(count)), rest)
        }
    }
}

/// What stands behind the word of a refusal.
#[tactic(auto, unfolding(crate::specs::Reasons::why_after))]
fn why_after(word: WhyWord, bytes: &[u8]) -> Result<(Told, &[u8]), Stop>
    ensures { Gives (λ x. (x.0, x.1.now)) result ((why_after word).read bytes.now) }
{
    match word {
        WhyWord::Plain(why) => ends(Told::No(why), bytes),
        WhyWord::Of(part) => {
            let rest = expect(bytes, b' ')?;
            part_after(part, rest)
        }
    }
}

/// Why a command is refused, and the bytes after the line's end.
#[tactic(auto, unfolding(crate::specs::Reasons::refusal))]
pub(crate) fn refusal(bytes: &[u8]) -> Result<(Told, &[u8]), Stop>
    ensures { Gives (λ x. (x.0, x.1.now)) result (refusal.read bytes.now) }
{
    let rest = expect(bytes, b' ')?;
    let (word, rest) = why_word(rest)?;
    why_after(word, rest)
}

/// The word of what is bad in a message, and the bytes after it.
fn bad_word(bytes: &[u8]) -> Result<(BadWord, &[u8]), Stop>
    ensures { Gives (λ x. (x.0, x.1.now)) result ((keyword bad_words).read bytes.now) }
{
    let words = [
        (BadWord::Unasked, "unasked"),
        (BadWord::StrangeId, "strange-id"),
        (BadWord::TooOld, "too-old"),
        (
            BadWord::Fault(FaultKind::MisalignedObject),
            "MISALIGNED_OBJECT",
        ),
        (
            BadWord::Fault(FaultKind::IllegalMemoryRange),
            "ILLEGAL_MEMORY_RANGE",
        ),
        (
            BadWord::Fault(FaultKind::UnexpectedStructHeader),
            "UNEXPECTED_STRUCT_HEADER",
        ),
        (
            BadWord::Fault(FaultKind::UnexpectedArrayHeader),
            "UNEXPECTED_ARRAY_HEADER",
        ),
        (BadWord::Fault(FaultKind::IllegalHandle), "ILLEGAL_HANDLE"),
        (
            BadWord::Fault(FaultKind::UnexpectedInvalidHandle),
            "UNEXPECTED_INVALID_HANDLE",
        ),
        (BadWord::Fault(FaultKind::IllegalPointer), "ILLEGAL_POINTER"),
        (
            BadWord::Fault(FaultKind::UnexpectedNullPointer),
            "UNEXPECTED_NULL_POINTER",
        ),
        (
            BadWord::Fault(FaultKind::IllegalInterfaceId),
            "ILLEGAL_INTERFACE_ID",
        ),
        (
            BadWord::Fault(FaultKind::UnexpectedInvalidInterfaceId),
            "UNEXPECTED_INVALID_INTERFACE_ID",
        ),
        (
            BadWord::Fault(FaultKind::MessageHeaderInvalidFlags),
            "MESSAGE_HEADER_INVALID_FLAGS",
        ),
        (
            BadWord::Fault(FaultKind::MessageHeaderMissingRequestId),
            "MESSAGE_HEADER_MISSING_REQUEST_ID",
        ),
        (
            BadWord::Fault(FaultKind::MessageHeaderUnknownMethod),
            "MESSAGE_HEADER_UNKNOWN_METHOD",
        ),
        (
            BadWord::Fault(FaultKind::DifferentSizedArraysInMap),
            "DIFFERENT_SIZED_ARRAYS_IN_MAP",
        ),
        (
            BadWord::Fault(FaultKind::UnexpectedNullUnion),
            "UNEXPECTED_NULL_UNION",
        ),
        (
            BadWord::Fault(FaultKind::UnknownUnionTag),
            "UNKNOWN_UNION_TAG",
        ),
        (
            BadWord::Fault(FaultKind::UnknownEnumValue),
            "UNKNOWN_ENUM_VALUE",
        ),
        (
            BadWord::Fault(FaultKind::MaxRecursionDepth),
            "MAX_RECURSION_DEPTH",
        ),
        (BadWord::Fault(FaultKind::BadUtf8), "BAD_UTF8"),
    ];
    keyword(&words, bytes)
}

/// What stands behind the word of what is bad in a message.
#[tactic(auto, unfolding(crate::specs::Reasons::bad_after))]
fn bad_after(word: BadWord, bytes: &[u8]) -> Result<(BadWhy, &[u8]), Stop>
    ensures { Gives (λ x. (x.0, x.1.now)) result ((bad_after word).read bytes.now) }
{
    let rest = expect(bytes, b' ')?;
    match word {
        BadWord::Fault(kind) => {
            let (at, rest) = wide(rest)?;
            Ok((BadWhy::Message(Fault { kind, at }), rest))
        }
        BadWord::Unasked => {
            let (request, rest) = wide(rest)?;
            Ok((BadWhy::Unasked(request), rest))
        }
        BadWord::StrangeId => {
            let (id, rest) = index(rest)?;
            Ok((BadWhy::StrangeId(id), rest))
        }
        BadWord::TooOld => {
            let (version, rest) = index(rest)?;
            Ok((BadWhy::TooOld(version), rest))
        }
    }
}

/// Why a message is bad, and the bytes after it.
#[tactic(auto, unfolding(crate::specs::Reasons::bad))]
pub(crate) fn bad(bytes: &[u8]) -> Result<(BadWhy, &[u8]), Stop>
    ensures { Gives (λ x. (x.0, x.1.now)) result (bad.read bytes.now) }
{
    let (word, rest) = bad_word(bytes)?;
    bad_after(word, rest)
}
