//! What the lines of a script ask, where all that they need is there.

use crate::names::{Held, Names};
use bind_model::{Asked, Boxed, Closing, Flow, KeptParameters, Outgoing, PendingId};
use call_script::{Command, NameId};
use handle_table::Thing;
use mj_base::{EndId, Items, SeqId};
use std::alloc::{AllocError, Global};
use wire_encoder::Prepared;

/// What is sent, with these handles and pendings, at a moment.
pub fn outgoing(
    alloc: Global,
    prepared: &Prepared,
    handles: Vec<Thing>,
    pendings: Vec<PendingId>,
    moment: Option<i64>,
) -> Result<Boxed<Outgoing>, AllocError> {
    let parameters = KeptParameters::of(alloc, &prepared.value)?;
    let handles = Items::from_vec(handles);
    let pendings = Items::from_vec(pendings);
    Outgoing::apart(
        alloc,
        prepared.target,
        parameters,
        handles,
        pendings,
        moment,
    )
}

/// The things whose handles a sequence holds under these names, in order; none where one of them holds none or
/// stands twice.
fn all_handles(
    alloc: Global,
    names: &Names<'_>,
    seq: SeqId,
    list: &[NameId],
) -> Result<Option<Vec<Thing>>, AllocError> {
    let mut things = Vec::new(alloc);
    for (k, name) in list.iter().enumerate() {
        match names.held(seq, *name) {
            Some(Held::Thing(thing)) if !list[..k].contains(name) => things.push(thing)?,
            Some(_) | None => return Ok(None),
        }
    }
    Ok(Some(things))
}

/// The pendings that a sequence holds under these names, in order; none where one of them holds none or
/// stands twice.
fn all_pendings(
    alloc: Global,
    names: &Names<'_>,
    seq: SeqId,
    list: &[NameId],
) -> Result<Option<Vec<PendingId>>, AllocError> {
    let mut pendings = Vec::new(alloc);
    for (k, name) in list.iter().enumerate() {
        match names.held(seq, *name) {
            Some(Held::Pending(pending)) if !list[..k].contains(name) => pendings.push(pending)?,
            Some(_) | None => return Ok(None),
        }
    }
    Ok(Some(pendings))
}

/// Of some names those that stand for ends and tokens, or those that don't.
fn select(
    alloc: Global,
    names: &Names<'_>,
    list: &[NameId],
    things: bool,
) -> Result<Vec<NameId>, AllocError> {
    let mut all = Vec::new(alloc);
    for name in list {
        if names.is_thing(*name) == things {
            all.push(*name)?;
        }
    }
    Ok(all)
}

/// The things whose handles a sequence holds under those of some names that stand for ends and tokens.
fn handles_in(
    alloc: Global,
    names: &Names<'_>,
    seq: SeqId,
    list: &[NameId],
) -> Result<Option<Vec<Thing>>, AllocError> {
    let things = select(alloc, names, list, true)?;
    all_handles(alloc, names, seq, &things)
}

/// The pendings that a sequence holds under those of some names that don't.
fn pendings_in(
    alloc: Global,
    names: &Names<'_>,
    seq: SeqId,
    list: &[NameId],
) -> Result<Option<Vec<PendingId>>, AllocError> {
    let others = select(alloc, names, list, false)?;
    all_pendings(alloc, names, seq, &others)
}

/// What is sent with what a sequence holds under these names, at a moment.
fn sent_with(
    alloc: Global,
    names: &Names<'_>,
    seq: SeqId,
    prepared: &Prepared,
    list: &[NameId],
    moment: Option<i64>,
) -> Result<Option<Boxed<Outgoing>>, AllocError> {
    let Some(handles) = handles_in(alloc, names, seq, list)? else {
        return Ok(None);
    };
    let Some(pendings) = pendings_in(alloc, names, seq, list)? else {
        return Ok(None);
    };
    Ok(Some(outgoing(alloc, prepared, handles, pendings, moment)?))
}

/// What a call or an answer asks.
fn sending_asks(
    alloc: Global,
    names: &Names<'_>,
    seq: SeqId,
    command: &Command,
) -> Result<Option<Asked>, AllocError> {
    match command {
        Command::Call(name, id, prepared, list, moment) => {
            let Some(end) = names.end(*name) else {
                return Ok(None);
            };
            match sent_with(alloc, names, seq, prepared, list.as_slice(), *moment)? {
                Some(sent) => Ok(Some(Asked::Call(end, *id, sent))),
                None => Ok(None),
            }
        }
        Command::Answer(name, prepared, list, moment) => {
            let Some(Held::Responder(responder)) = names.held(seq, *name) else {
                return Ok(None);
            };
            match sent_with(alloc, names, seq, prepared, list.as_slice(), *moment)? {
                Some(sent) => Ok(Some(Asked::Answer(responder, sent))),
                None => Ok(None),
            }
        }
        _ => Ok(None),
    }
}

/// To write these bytes from what is held under a name, with what is held under others, it not among them.
fn raw_asks(
    alloc: Global,
    names: &Names<'_>,
    seq: SeqId,
    name: NameId,
    bytes: &Items<u8>,
    list: &[NameId],
) -> Result<Option<Asked>, AllocError> {
    let Some(Held::Thing(thing)) = names.held(seq, name) else {
        return Ok(None);
    };
    if list.contains(&name) {
        return Ok(None);
    }
    let Some(things) = all_handles(alloc, names, seq, list)? else {
        return Ok(None);
    };
    let bytes = bytes.copy(alloc)?;
    Ok(Some(Asked::Raw(thing, bytes, Items::from_vec(things))))
}

/// To move bytes at what is held under a name.
fn flow_asks(
    alloc: Global,
    names: &Names<'_>,
    seq: SeqId,
    name: NameId,
    flow: &Flow,
) -> Result<Option<Asked>, AllocError> {
    let Some(Held::Thing(thing)) = names.held(seq, name) else {
        return Ok(None);
    };
    Ok(Some(Asked::Flow(thing, flow.copy(alloc)?)))
}

/// How what is held is closed.
fn closing(held: Held) -> Closing {
    match held {
        Held::Thing(thing) => Closing::Handle(thing),
        Held::Pending(pending) => Closing::Pending(pending),
        Held::Responder(responder) => Closing::Responder(responder),
    }
}

/// What a command of a sequence asks that spends what is held under one name.
fn spending_asks(held: Option<Held>, command: &Command) -> Option<Asked> {
    match (command, held) {
        (Command::Bind(_, side, interface), Some(Held::Thing(thing))) => {
            Some(Asked::Bind(thing, *side, *interface))
        }
        (Command::Attach(_, on), Some(Held::Pending(pending))) => Some(Asked::Attach(pending, *on)),
        (Command::CloseToken(_), Some(held)) => Some(Asked::Close(closing(held))),
        _ => None,
    }
}

/// What a command asks at the end that its name stands for.
fn end_asks(end: EndId, command: &Command) -> Option<Asked> {
    match command {
        Command::Associate(_, side, interface, _) => {
            Some(Asked::Associate(end, *side, *interface))
        }
        Command::Take(_, _) => Some(Asked::Take(end)),
        Command::CloseEndpoint(_, id) => Some(Asked::Close(Closing::Endpoint(end, *id))),
        Command::Notify(_, notice) => Some(Asked::Notify(end, *notice)),
        _ => None,
    }
}

/// What a command of a sequence asks, where all that it needs is there.
pub fn asks(
    alloc: Global,
    names: &Names<'_>,
    seq: SeqId,
    command: &Command,
) -> Result<Option<Asked>, AllocError> {
    match command {
        Command::Join(other, _, _) => Ok(Some(Asked::Join(*other))),
        Command::Pipe(_, _) => Ok(Some(Asked::Pipe)),
        Command::Mint(sort, _) => Ok(Some(Asked::Mint(*sort))),
        Command::Bind(name, _, _) | Command::Attach(name, _) | Command::CloseToken(name) => {
            Ok(spending_asks(names.held(seq, *name), command))
        }
        Command::Associate(name, _, _, _)
        | Command::Take(name, _)
        | Command::CloseEndpoint(name, _)
        | Command::Notify(name, _) => match names.end(*name) {
            Some(end) => Ok(end_asks(end, command)),
            None => Ok(None),
        },
        Command::Call(_, _, _, _, _) | Command::Answer(_, _, _, _) => {
            sending_asks(alloc, names, seq, command)
        }
        Command::Raw(name, bytes, list) => {
            raw_asks(alloc, names, seq, *name, bytes, list.as_slice())
        }
        Command::Pause(name, other, flush) => match (names.end(*name), names.end(*other)) {
            (Some(end), Some(other)) => Ok(Some(Asked::Pause(end, other, *flush))),
            _ => Ok(None),
        },
        Command::Data(capacity, _, _) => Ok(Some(Asked::Data(*capacity))),
        Command::Flow(name, flow) => flow_asks(alloc, names, seq, *name, flow),
    }
}
