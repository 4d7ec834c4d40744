//! Commands, up to the arrow.

ghost use Rattle.byte_rules.specs.Reading.{Gives};
ghost use Rattle.line_parts.specs.Keywords.{keyword};
ghost use Rattle.history_reader.specs.Commands.{command_words, sort, side, join, mint, role, bind, associate, attach, call, call_at, answer};
ghost use Rattle.history_reader.specs.Commands.{answer_at, raw, take, skip, closing_at, closing, close, asked_after, asked};

use crate::arrows::asks;
use crate::flows::{FlowWord, data_pipe, flow_after};
use crate::notices::{NoticeWord, notice_after, pause};
use bind_model::{Asked, Closing};
use byte_rules::{Stop, expect, is_next};
use handle_table::{Thing, TokenSort};
use line_parts::hexadecimal::hexadecimal;
use line_parts::ids::{end, endpoint, pending, responder, sequence, thing, token};
use line_parts::keywords::keyword;
use line_parts::lists::things;
use line_parts::messages::outgoing;
use line_parts::names::Names;
use line_parts::numbers::moment;
use mj_base::EndId;
use mj_schema::Schema;
use std::alloc::Global;
use value_text::index;
use wire_encoder::EndpointSide;
use wire_model::MessageSide;

/// The word that a command begins with; of a call and an answer, true where a moment follows.
#[derive(Clone, Copy)]
pub(crate) enum CommandWord {
    Pipe,
    Join,
    Mint,
    Bind,
    Associate,
    Attach,
    Call(bool),
    Answer(bool),
    Raw,
    Take,
    Close,
    Notify(NoticeWord),
    Pause,
    Data,
    Flow(FlowWord),
    Skip,
}

/// A sort of token, and the bytes after it.
#[tactic(auto, unfolding(crate::specs::Commands::sort))]
fn sort(bytes: &[u8]) -> Result<(TokenSort, &[u8]), Stop>
    ensures { Gives (λ x. (x.0, x.1.now)) result (sort.read bytes.now) }
{
    let sorts = [
        (TokenSort::SharedBuffer, "shared_buffer"),
        (TokenSort::Platform, "platform"),
    ];
    keyword(&sorts, bytes)
}

/// A side of an endpoint, and the bytes after it.
#[tactic(auto, unfolding(crate::specs::Commands::side))]
fn side(bytes: &[u8]) -> Result<(EndpointSide, &[u8]), Stop>
    ensures { Gives (λ x. (x.0, x.1.now)) result (side.read bytes.now) }
{
    let sides = [
        (EndpointSide::Remote, "remote"),
        (EndpointSide::Receiver, "receiver"),
    ];
    keyword(&sides, bytes)
}

/// A sequence that a pipe is shared with.
#[tactic(auto, unfolding(crate::specs::Commands::join))]
fn join(bytes: &[u8]) -> Result<(Asked, &[u8]), Stop>
    ensures { Gives (λ x. (x.0, x.1.now)) result (join.read bytes.now) }
{
    let rest = expect(bytes, b' ')?;
    let (seq, rest) = sequence(rest)?;
    asks(Asked::Join(seq), rest)
}

/// The sort of a new token.
#[tactic(auto, unfolding(crate::specs::Commands::mint))]
fn mint(bytes: &[u8]) -> Result<(Asked, &[u8]), Stop>
    ensures { Gives (λ x. (x.0, x.1.now)) result (mint.read bytes.now) }
{
    let rest = expect(bytes, b' ')?;
    let (sort, rest) = sort(rest)?;
    asks(Asked::Mint(sort), rest)
}

/// A side and an interface.
#[tactic(auto, unfolding(crate::specs::Commands::role))]
fn role<'a>(names: &Names, bytes: &'a [u8]) -> Result<((EndpointSide, u32), &'a [u8]), Stop>
    ensures { Gives (λ x. (x.0, x.1.now)) result ((role names.now).read bytes.now) }
{
    let rest = expect(bytes, b' ')?;
    let (side, rest) = side(rest)?;
    let rest = expect(rest, b' ')?;
    let (interface, rest) = names.interface(rest)?;
    Ok(((side, interface), rest))
}

/// An end that is bound, and as what.
#[tactic(auto, unfolding(crate::specs::Commands::bind))]
fn bind<'a>(names: &Names, bytes: &'a [u8]) -> Result<(Asked, &'a [u8]), Stop>
    ensures { Gives (λ x. (x.0, x.1.now)) result ((bind names.now).read bytes.now) }
{
    let rest = expect(bytes, b' ')?;
    let (thing, rest) = thing(rest)?;
    let ((side, interface), rest) = role(names, rest)?;
    asks(Asked::Bind(thing, side, interface), rest)
}

/// The end of a new endpoint, and what it is bound as.
#[tactic(auto, unfolding(crate::specs::Commands::associate))]
fn associate<'a>(names: &Names, bytes: &'a [u8]) -> Result<(Asked, &'a [u8]), Stop>
    ensures { Gives (λ x. (x.0, x.1.now)) result ((associate names.now).read bytes.now) }
{
    let rest = expect(bytes, b' ')?;
    let (end, rest) = end(rest)?;
    let ((side, interface), rest) = role(names, rest)?;
    asks(Asked::Associate(end, side, interface), rest)
}

/// A pending endpoint and the sequence that it is bound on.
#[tactic(auto, unfolding(crate::specs::Commands::attach))]
fn attach(bytes: &[u8]) -> Result<(Asked, &[u8]), Stop>
    ensures { Gives (λ x. (x.0, x.1.now)) result (attach.read bytes.now) }
{
    let rest = expect(bytes, b' ')?;
    let (pending, rest) = pending(rest)?;
    let rest = expect(rest, b' ')?;
    let (seq, rest) = sequence(rest)?;
    asks(Asked::Attach(pending, seq), rest)
}

/// The endpoint of a request, and what is sent at this moment, which stands before it.
#[tactic(auto, unfolding(crate::specs::Commands::call))]
fn call<'a>(
    alloc: Global,
    schema: &Schema,
    names: &Names,
    moment: Option<i64>,
    bytes: &'a [u8],
) -> Result<(Asked, &'a [u8]), Stop>
    ensures { Gives (λ x. (x.0, x.1.now)) result ((call schema.now names.now moment).read bytes.now) }
{
    let rest = expect(bytes, b' ')?;
    let ((end, id), rest) = endpoint(rest)?;
    let rest = expect(rest, b' ')?;
    let (outgoing, rest) = outgoing(alloc, schema, names, MessageSide::Request, moment, rest)?;
    asks(Asked::Call(end, id, outgoing), rest)
}

/// The moment of a request, its endpoint, and what is sent.
#[tactic(auto, unfolding(crate::specs::Commands::call_at))]
fn call_at<'a>(
    alloc: Global,
    schema: &Schema,
    names: &Names,
    bytes: &'a [u8],
) -> Result<(Asked, &'a [u8]), Stop>
    ensures { Gives (λ x. (x.0, x.1.now)) result ((call_at schema.now names.now).read bytes.now) }
{
    let rest = expect(bytes, b' ')?;
    let (moment, rest) = moment(rest)?;
    call(alloc, schema, names, Some(moment), rest)
}

/// The responder of a response, and what is sent at this moment, which stands before it.
#[tactic(auto, unfolding(crate::specs::Commands::answer))]
fn answer<'a>(
    alloc: Global,
    schema: &Schema,
    names: &Names,
    moment: Option<i64>,
    bytes: &'a [u8],
) -> Result<(Asked, &'a [u8]), Stop>
    ensures { Gives (λ x. (x.0, x.1.now)) result ((answer schema.now names.now moment).read bytes.now) }
{
    let rest = expect(bytes, b' ')?;
    let (responder, rest) = responder(rest)?;
    let rest = expect(rest, b' ')?;
    let (outgoing, rest) = outgoing(alloc, schema, names, MessageSide::Response, moment, rest)?;
    asks(Asked::Answer(responder, outgoing), rest)
}

/// The moment of a response, its responder, and what is sent.
#[tactic(auto, unfolding(crate::specs::Commands::answer_at))]
fn answer_at<'a>(
    alloc: Global,
    schema: &Schema,
    names: &Names,
    bytes: &'a [u8],
) -> Result<(Asked, &'a [u8]), Stop>
    ensures { Gives (λ x. (x.0, x.1.now)) result ((answer_at schema.now names.now).read bytes.now) }
{
    let rest = expect(bytes, b' ')?;
    let (moment, rest) = moment(rest)?;
    answer(alloc, schema, names, Some(moment), rest)
}

/// An end, and the bytes and handles that are written to it.
#[tactic(auto, unfolding(crate::specs::Commands::raw))]
fn raw(alloc: Global, bytes: &[u8]) -> Result<(Asked, &[u8]), Stop>
    ensures { Gives (λ x. (x.0, x.1.now)) result (raw.read bytes.now) }
{
    let rest = expect(bytes, b' ')?;
    let (thing, rest) = thing(rest)?;
    let rest = expect(rest, b' ')?;
    let (message, rest) = hexadecimal(alloc, b' ', rest)?;
    let (handles, rest) = things(alloc, rest)?;
    asks(Asked::Raw(thing, message, handles), rest)
}

/// An end at which a message is taken.
#[tactic(auto, unfolding(crate::specs::Commands::take))]
fn take(bytes: &[u8]) -> Result<(Asked, &[u8]), Stop>
    ensures { Gives (λ x. (x.0, x.1.now)) result (take.read bytes.now) }
{
    let rest = expect(bytes, b' ')?;
    let (end, rest) = end(rest)?;
    asks(Asked::Take(end), rest)
}

/// The number of a line that is skipped.
#[tactic(auto, unfolding(crate::specs::Commands::skip))]
fn skip(bytes: &[u8]) -> Result<(Asked, &[u8]), Stop>
    ensures { Gives (λ x. (x.0, x.1.now)) result (skip.read bytes.now) }
{
    let rest = expect(bytes, b' ')?;
    let (line, rest) = index(rest)?;
    asks(Asked::Skip(line), rest)
}

/// What is closed, where it begins with this end: the endpoint of an id there, or the end.
#[tactic(auto, unfolding(crate::specs::Commands::closing_at))]
fn closing_at(end: EndId, bytes: &[u8]) -> Result<(Asked, &[u8]), Stop>
    ensures { Gives (λ x. (x.0, x.1.now)) result ((closing_at end).read bytes.now) }
{
    if is_next(bytes, b'#') {
        let rest = expect(bytes, b'#')?;
        let (id, rest) = index(rest)?;
        return asks(Asked::Close(Closing::Endpoint(end, id)), rest);
    }
    asks(Asked::Close(Closing::Handle(Thing::End(end))), bytes)
}

/// What is closed.
fn closing(bytes: &[u8]) -> Result<(Asked, &[u8]), Stop>
    ensures { Gives (λ x. (x.0, x.1.now)) result (closing.read bytes.now) }
{
    if is_next(bytes, b't') {
        let (token, rest) = token(bytes)?;
        return asks(Asked::Close(Closing::Handle(Thing::Token(token))), rest);
    }
    if is_next(bytes, b'p') {
        let (pending, rest) = pending(bytes)?;
        return asks(Asked::Close(Closing::Pending(pending)), rest);
    }
    if is_next(bytes, b'r') {
        let (responder, rest) = responder(bytes)?;
        return asks(Asked::Close(Closing::Responder(responder)), rest);
    }
    let (end, rest) = end(bytes)?;
    closing_at(end, rest)
}

/// A blank and what is closed.
#[tactic(auto, unfolding(crate::specs::Commands::close))]
fn close(bytes: &[u8]) -> Result<(Asked, &[u8]), Stop>
    ensures { Gives (λ x. (x.0, x.1.now)) result (close.read bytes.now) }
{
    let rest = expect(bytes, b' ')?;
    closing(rest)
}

/// What stands behind the word of a command, up to the arrow, and the bytes after it.
fn asked_after<'a>(
    alloc: Global,
    schema: &Schema,
    names: &Names,
    word: CommandWord,
    bytes: &'a [u8],
) -> Result<(Asked, &'a [u8]), Stop>
    ensures { Gives (λ x. (x.0, x.1.now)) result ((asked_after schema.now names.now word).read bytes.now) }
{
    match word {
        CommandWord::Pipe => asks(Asked::Pipe, bytes),
        CommandWord::Join => join(bytes),
        CommandWord::Mint => mint(bytes),
        CommandWord::Bind => bind(names, bytes),
        CommandWord::Associate => associate(names, bytes),
        CommandWord::Attach => attach(bytes),
        CommandWord::Call(false) => call(alloc, schema, names, None, bytes),
        CommandWord::Call(true) => call_at(alloc, schema, names, bytes),
        CommandWord::Answer(false) => answer(alloc, schema, names, None, bytes),
        CommandWord::Answer(true) => answer_at(alloc, schema, names, bytes),
        CommandWord::Raw => raw(alloc, bytes),
        CommandWord::Take => take(bytes),
        CommandWord::Close => close(bytes),
        CommandWord::Notify(word) => notice_after(word, bytes),
        CommandWord::Pause => pause(bytes),
        CommandWord::Data => data_pipe(bytes),
        CommandWord::Flow(word) => flow_after(alloc, word, bytes),
        CommandWord::Skip => skip(bytes),
    }
}

/// The word of a command, and the bytes after it.
fn command_word(bytes: &[u8]) -> Result<(CommandWord, &[u8]), Stop>
    ensures { Gives (λ x. (x.0, x.1.now)) result ((keyword command_words).read bytes.now) }
{
    let words = [
        (CommandWord::Pipe, "pipe"),
        (CommandWord::Join, "join"),
        (CommandWord::Mint, "mint"),
        (CommandWord::Bind, "bind"),
        (CommandWord::Associate, "associate"),
        (CommandWord::Attach, "attach"),
        (CommandWord::Call(false), "call"),
        (CommandWord::Call(true), "call-at"),
        (CommandWord::Answer(false), "answer"),
        (CommandWord::Answer(true), "answer-at"),
        (CommandWord::Raw, "raw"),
        (CommandWord::Take, "take"),
        (CommandWord::Close, "close"),
        (CommandWord::Notify(NoticeWord::Query), "query"),
        (CommandWord::Notify(NoticeWord::Require), "require"),
        (CommandWord::Notify(NoticeWord::Flush), "flush"),
        (CommandWord::Pause, "pause"),
        (CommandWord::Data, "data"),
        (CommandWord::Flow(FlowWord::Put(false)), "put"),
        (CommandWord::Flow(FlowWord::Put(true)), "put-all"),
        (CommandWord::Flow(FlowWord::Get(false)), "get"),
        (CommandWord::Flow(FlowWord::Get(true)), "get-all"),
        (CommandWord::Flow(FlowWord::BeginPut), "begin-put"),
        (CommandWord::Flow(FlowWord::EndPut), "end-put"),
        (CommandWord::Flow(FlowWord::BeginGet), "begin-get"),
        (CommandWord::Flow(FlowWord::EndGet), "end-get"),
        (CommandWord::Skip, "skip"),
    ];
    keyword(&words, bytes)
}

/// A command up to the arrow, and the bytes after it.
#[tactic(auto, unfolding(crate::specs::Commands::asked))]
pub(crate) fn asked<'a>(
    alloc: Global,
    schema: &Schema,
    names: &Names,
    bytes: &'a [u8],
) -> Result<(Asked, &'a [u8]), Stop>
    ensures { Gives (λ x. (x.0, x.1.now)) result ((asked schema.now names.now).read bytes.now) }
{
    let (word, rest) = command_word(bytes)?;
    asked_after(alloc, schema, names, word, rest)
}
