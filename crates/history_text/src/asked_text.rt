//! How commands stand in a line.

ghost use Rattle.std.specs.Prelude.{◌≡◌, ◌++◌, OnOk, IfSome, codes};
ghost use Rattle.bind_model.specs.declared.asked.Asked.TheVariants.{Answer, Associate, Bind, Call};
ghost use Rattle.history_text.specs.History.{all_text, asked_text, at_text, flow_text, hex_text, notice_text, outgoing_text, thing_text, things_text};

use crate::message_text::{push_outgoing, push_text};
use crate::names::name_of_interface;
use crate::parts::{push_bytes, push_pair, push_shown, push_triple};
use crate::shown::{
    ShownAt, ShownClosing, ShownEnd, ShownEndpoint, ShownPending, ShownResponder, ShownThing,
};
use crate::shown_lists::ShownThings;
use crate::words::{side_word, sort_word};
use bind_model::{Asked, Boxed, Flow, Notice, Outgoing, ResponderId};
use handle_table::Thing;
use mj_base::EndId;
use mj_schema::Schema;
use std::alloc::{AllocError, Global};
use std::fmt;
use wire_encoder::EndpointSide;

/// Adds a word, who sends, and what is sent.
fn push_sent<A: fmt::Display + Copy>(
    alloc: Global,
    out: &mut Vec<u8>,
    schema: &Schema,
    word: &str,
    sender: A,
    outgoing: &Outgoing,
) -> Result<(), AllocError>
    ensures { OnOk result (IfSome (A.output sender) (λ a. out.new.items ≡ out.old.items
        ++ (word.now ++ (at_text outgoing.now.moment ++ (codes " " ++ (a ++ (codes " " ++ outgoing_text schema.now outgoing.now))))))) }
{
    push_pair(alloc, out, word, ShownAt(outgoing.moment), sender)?;
    push_text(out, " ")?;
    push_outgoing(alloc, out, schema, outgoing)
}

/// Adds a request.
fn push_request(
    alloc: Global,
    out: &mut Vec<u8>,
    schema: &Schema,
    end: EndId,
    id: u32,
    outgoing: &Outgoing,
) -> Result<(), AllocError>
    ensures { OnOk result (out.new.items ≡ out.old.items ++ asked_text schema.now (Call end id outgoing.now)) }
{
    push_sent(alloc, out, schema, "call", ShownEndpoint(end, id), outgoing)
}

/// The same, where what is sent lies apart.
fn push_call(
    alloc: Global,
    out: &mut Vec<u8>,
    schema: &Schema,
    end: EndId,
    id: u32,
    outgoing: &Boxed<Outgoing>,
) -> Result<(), AllocError>
    ensures { OnOk result (out.new.items ≡ out.old.items ++ asked_text schema.now (Call end id outgoing.now)) }
{
    push_request(alloc, out, schema, end, id, outgoing.get())
}

/// Adds a response.
fn push_response(
    alloc: Global,
    out: &mut Vec<u8>,
    schema: &Schema,
    responder: ResponderId,
    outgoing: &Outgoing,
) -> Result<(), AllocError>
    ensures { OnOk result (out.new.items ≡ out.old.items ++ asked_text schema.now (Answer responder outgoing.now)) }
{
    push_sent(
        alloc,
        out,
        schema,
        "answer",
        ShownResponder(responder),
        outgoing,
    )
}

/// The same, where what is sent lies apart.
fn push_answer(
    alloc: Global,
    out: &mut Vec<u8>,
    schema: &Schema,
    responder: ResponderId,
    outgoing: &Boxed<Outgoing>,
) -> Result<(), AllocError>
    ensures { OnOk result (out.new.items ≡ out.old.items ++ asked_text schema.now (Answer responder outgoing.now)) }
{
    push_response(alloc, out, schema, responder, outgoing.get())
}

/// Adds the making of an associated endpoint.
fn push_associate(
    alloc: Global,
    out: &mut Vec<u8>,
    schema: &Schema,
    end: EndId,
    side: EndpointSide,
    interface: u32,
) -> Result<(), AllocError>
    ensures { OnOk result (out.new.items ≡ out.old.items ++ asked_text schema.now (Associate end side interface)) }
{
    let name = name_of_interface(alloc, schema, interface)?;
    push_triple(
        alloc,
        out,
        "associate ",
        ShownEnd(end),
        side_word(side),
        name.as_str(),
    )
}

/// Adds the binding of an end.
fn push_bind(
    alloc: Global,
    out: &mut Vec<u8>,
    schema: &Schema,
    end: Thing,
    side: EndpointSide,
    interface: u32,
) -> Result<(), AllocError>
    ensures { OnOk result (out.new.items ≡ out.old.items ++ asked_text schema.now (Bind end side interface)) }
{
    let name = name_of_interface(alloc, schema, interface)?;
    push_triple(
        alloc,
        out,
        "bind ",
        ShownThing(end),
        side_word(side),
        name.as_str(),
    )
}

/// Adds a raw message.
fn push_raw(
    alloc: Global,
    out: &mut Vec<u8>,
    end: Thing,
    bytes: &[u8],
    handles: &[Thing],
) -> Result<(), AllocError>
    ensures { OnOk result (out.new.items ≡ out.old.items
        ++ (codes "raw " ++ (thing_text end ++ (codes " " ++ (hex_text bytes.now ++ (codes " " ++ things_text handles.now)))))) }
{
    push_bytes(alloc, out, "raw ", ShownThing(end), bytes)?;
    push_shown(alloc, out, " ", ShownThings(handles))
}

/// Adds what asks for a control.
fn push_notice(
    alloc: Global,
    out: &mut Vec<u8>,
    end: EndId,
    notice: Notice,
) -> Result<(), AllocError>
    ensures { OnOk result (out.new.items ≡ out.old.items ++ notice_text end notice) }
{
    match notice {
        Notice::Query(id) => push_shown(alloc, out, "query ", ShownEndpoint(end, id)),
        Notice::Require(id, version) => push_pair(
            alloc,
            out,
            "require ",
            ShownEndpoint(end, id),
            version,
        ),
        Notice::Flush => push_shown(alloc, out, "flush ", ShownEnd(end)),
    }
}

/// What stands behind a word where all is asked for.
fn all_word(all: bool) -> &'static str
    ensures { result.now ≡ all_text all }
{
    if all { "-all" } else { "" }
}

/// Adds what is asked of a data pipe.
fn push_flow(alloc: Global, out: &mut Vec<u8>, token: Thing, flow: &Flow) -> Result<(), AllocError>
    ensures { OnOk result (out.new.items ≡ out.old.items ++ flow_text token flow.now) }
{
    let shown = ShownThing(token);
    match flow {
        Flow::Put(bytes, all) => {
            push_shown(alloc, out, "put", all_word(*all))?;
            push_bytes(alloc, out, " ", shown, bytes.as_slice())
        }
        Flow::Get(n, all) => push_triple(alloc, out, "get", all_word(*all), shown, *n),
        Flow::BeginPut => push_shown(alloc, out, "begin-put ", shown),
        Flow::EndPut(bytes) => push_bytes(alloc, out, "end-put ", shown, bytes.as_slice()),
        Flow::BeginGet => push_shown(alloc, out, "begin-get ", shown),
        Flow::EndGet(n) => push_pair(alloc, out, "end-get ", shown, *n),
    }
}

/// Adds a command.
pub(crate) fn push_asked(
    alloc: Global,
    out: &mut Vec<u8>,
    schema: &Schema,
    asked: &Asked,
) -> Result<(), AllocError>
    ensures { OnOk result (out.new.items ≡ out.old.items ++ asked_text schema.now asked.now) }
{
    match asked {
        Asked::Pipe => push_text(out, "pipe"),
        Asked::Join(t) => push_shown(alloc, out, "join ", t.0),
        Asked::Mint(sort) => push_shown(alloc, out, "mint ", sort_word(*sort)),
        Asked::Bind(x, side, number) => push_bind(alloc, out, schema, *x, *side, *number),
        Asked::Associate(x, side, number) => {
            push_associate(alloc, out, schema, *x, *side, *number)
        }
        Asked::Attach(p, t) => push_pair(alloc, out, "attach ", ShownPending(*p), t.0),
        Asked::Call(x, id, outgoing) => { push_call(alloc, out, schema, *x, *id, outgoing) }
        Asked::Answer(r, outgoing) => { push_answer(alloc, out, schema, *r, outgoing) }
        Asked::Raw(x, bytes, handles) => {
            push_raw(alloc, out, *x, bytes.as_slice(), handles.as_slice())
        }
        Asked::Take(x) => push_shown(alloc, out, "take ", ShownEnd(*x)),
        Asked::Close(thing) => push_shown(alloc, out, "close ", ShownClosing(*thing)),
        Asked::Notify(x, notice) => push_notice(alloc, out, *x, *notice),
        Asked::Pause(b, a, flush) => {
            push_triple(alloc, out, "pause ", ShownEnd(*b), ShownEnd(*a), *flush)
        }
        Asked::Data(size) => push_shown(alloc, out, "data ", *size),
        Asked::Flow(x, flow) => push_flow(alloc, out, *x, flow),
        Asked::Skip(line) => push_shown(alloc, out, "skip ", *line),
    }
}
