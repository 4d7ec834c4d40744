//! Whether replies, commands and histories are the same.

use bind_model::{Asked, Event, Flow, Flowed, Got, KeptParameters, Outgoing, Told};
use std::alloc::{AllocError, Global};
use wire_reference::are_same;

/// Whether two have the same value.
fn are_same_parameters(
    alloc: Global,
    one: &KeptParameters,
    two: &KeptParameters,
) -> Result<bool, AllocError> {
    let first = one.value(alloc)?;
    let second = two.value(alloc)?;
    are_same(alloc, &first, &second)
}

/// Whether two calls or answers send the same.
fn are_same_outgoing(alloc: Global, one: &Outgoing, two: &Outgoing) -> Result<bool, AllocError> {
    let values = are_same_parameters(alloc, &one.parameters, &two.parameters)?;
    Ok(
        values
            && one.target == two.target
            && one.handles.as_slice() == two.handles.as_slice()
            && one.pendings.as_slice() == two.pendings.as_slice()
            && one.moment == two.moment,
    )
}

/// Whether two moves at a data pipe ask the same.
fn are_same_flow(one: &Flow, two: &Flow) -> bool {
    match (one, two) {
        (Flow::Put(one, all), Flow::Put(two, other)) => {
            one.as_slice() == two.as_slice() && all == other
        }
        (Flow::Get(one, all), Flow::Get(two, other)) => one == two && all == other,
        (Flow::EndPut(one), Flow::EndPut(two)) => one.as_slice() == two.as_slice(),
        (Flow::EndGet(one), Flow::EndGet(two)) => one == two,
        (Flow::BeginPut, Flow::BeginPut) | (Flow::BeginGet, Flow::BeginGet) => true,
        _ => false,
    }
}

/// Whether two moves at a data pipe tell the same.
fn are_same_flowed(one: &Flowed, two: &Flowed) -> bool {
    match (one, two) {
        (Flowed::Put(one), Flowed::Put(two)) | (Flowed::Space(one), Flowed::Space(two)) => {
            one == two
        }
        (Flowed::Bytes(one), Flowed::Bytes(two)) | (Flowed::View(one), Flowed::View(two)) => {
            one.as_slice() == two.as_slice()
        }
        (Flowed::Ended, Flowed::Ended) => true,
        _ => false,
    }
}

/// Whether two commands are the same.
fn are_same_asked(alloc: Global, one: &Asked, two: &Asked) -> Result<bool, AllocError> {
    match (one, two) {
        (Asked::Call(x, id, one), Asked::Call(y, other, two)) => {
            Ok(x == y && id == other && are_same_outgoing(alloc, one.get(), two.get())?)
        }
        (Asked::Answer(name, one), Asked::Answer(other, two)) => {
            Ok(name == other && are_same_outgoing(alloc, one.get(), two.get())?)
        }
        (Asked::Bind(x, side, number), Asked::Bind(y, other, another)) => {
            Ok(x == y && side == other && number == another)
        }
        (Asked::Associate(x, side, number), Asked::Associate(y, other, another)) => {
            Ok(x == y && side == other && number == another)
        }
        (Asked::Attach(one, on), Asked::Attach(two, other)) => Ok(one == two && on == other),
        (Asked::Raw(x, one, with), Asked::Raw(y, two, others)) => Ok(
            x == y && one.as_slice() == two.as_slice() && with.as_slice() == others.as_slice(),
        ),
        (Asked::Pipe, Asked::Pipe) => Ok(true),
        (Asked::Join(one), Asked::Join(two)) => Ok(one == two),
        (Asked::Mint(one), Asked::Mint(two)) => Ok(one == two),
        (Asked::Take(one), Asked::Take(two)) => Ok(one == two),
        (Asked::Close(one), Asked::Close(two)) => Ok(one == two),
        (Asked::Skip(one), Asked::Skip(two)) => Ok(one == two),
        (Asked::Notify(x, one), Asked::Notify(y, two)) => Ok(x == y && one == two),
        (Asked::Pause(x, one, flush), Asked::Pause(y, two, other)) => {
            Ok(x == y && one == two && flush == other)
        }
        (Asked::Data(one), Asked::Data(two)) => Ok(one == two),
        (Asked::Flow(x, one), Asked::Flow(y, two)) => Ok(x == y && are_same_flow(one, two)),
        _ => Ok(false),
    }
}

/// Whether two takes got the same.
fn are_same_got(alloc: Global, one: &Got, two: &Got) -> Result<bool, AllocError> {
    let values = are_same_parameters(alloc, &one.parameters, &two.parameters)?;
    Ok(
        values
            && one.id == two.id
            && one.target == two.target
            && one.request == two.request
            && one.handles.as_slice() == two.handles.as_slice()
            && one.pendings.as_slice() == two.pendings.as_slice()
            && one.gone.as_slice() == two.gone.as_slice()
            && one.moment == two.moment,
    )
}

/// Whether two replies are the same.
pub fn are_same_told(alloc: Global, one: &Told, two: &Told) -> Result<bool, AllocError> {
    match (one, two) {
        (Told::Taken(one), Told::Taken(two)) => are_same_got(alloc, one.get(), two.get()),
        (Told::Made(one), Told::Made(two)) | (Told::Closed(one), Told::Closed(two)) => {
            Ok(one.as_slice() == two.as_slice())
        }
        (Told::Bound(one), Told::Bound(two)) | (Told::Wrote(one), Told::Wrote(two)) => {
            Ok(one == two)
        }
        (Told::Associated(one), Told::Associated(two)) => Ok(one == two),
        (Told::Attached(one), Told::Attached(two)) => Ok(one == two),
        (Told::Control(one), Told::Control(two)) => Ok(one == two),
        (Told::Sent(number, one), Told::Sent(other, two)) => {
            Ok(number == other && one.as_slice() == two.as_slice())
        }
        (Told::Dropped(id, one), Told::Dropped(other, two)) => {
            Ok(id == other && one.as_slice() == two.as_slice())
        }
        (Told::Bad(why, one), Told::Bad(other, two)) => {
            Ok(why == other && one.as_slice() == two.as_slice())
        }
        (Told::Notified(one), Told::Notified(two)) => Ok(one == two),
        (Told::Flowed(x, one), Told::Flowed(y, two)) => Ok(x == y && are_same_flowed(one, two)),
        (Told::Pausing, Told::Pausing) | (Told::Skipped, Told::Skipped) => Ok(true),
        (Told::No(one), Told::No(two)) => Ok(one == two),
        _ => Ok(false),
    }
}

/// Whether two events are the same.
fn are_same_event(alloc: Global, one: &Event, two: &Event) -> Result<bool, AllocError> {
    Ok(
        one.seq == two.seq
            && are_same_asked(alloc, &one.asked, &two.asked)?
            && are_same_told(alloc, &one.told, &two.told)?,
    )
}

/// Whether two histories are the same.
pub fn are_same_events(alloc: Global, one: &[Event], two: &[Event]) -> Result<bool, AllocError> {
    for (one, two) in one.iter().zip(two) {
        if !are_same_event(alloc, one, two)? {
            return Ok(false);
        }
    }
    Ok(one.len() == two.len())
}
