//! What a reply hands out.

ghost use Rattle.std.specs.Prelude.{◌≡◌, IfOk};
ghost use Rattle.bind_model.specs.Machine.{handed};
ghost use Rattle.bind_model.specs.Replies.{responders_handed};
ghost use Rattle.bind_model.specs.WireOf.{wire_of};
ghost use Rattle.bind_model.specs.declared.asked.Asked.TheVariants as asks;
ghost use Rattle.bind_model.specs.declared.told.Told.TheVariants as tells;
ghost use Rattle.script_names.specs.Names.{is_done, pendings_handed};
ghost use Rattle.script_names.specs.Settling.{list_of};

use bind_model::{Asked, Boxed, Event, Got, PendingId, ResponderId, Told};
use core_taking::receive::gives_responder;
use handle_table::Thing;
use mj_base::EndId;
use mj_schema::Schema;
use std::alloc::{AllocError, Global};

/// The things that came with a message that was got.
fn handles_in(got: &Boxed<Got>) -> &[Thing]
    ensures { result.now ≡ got.now.handles }
{
    got.get().handles.as_slice()
}

/// The pendings that came with a message that was got.
fn pendings_in(got: &Boxed<Got>) -> &[PendingId]
    ensures { result.now ≡ got.now.pendings }
{
    got.get().pendings.as_slice()
}

/// The things that come with a reply.
pub(crate) fn handed(told: &Told) -> &[Thing]
    ensures { result.now ≡ handed told.now }
{
    match told {
        Told::Made(things) => things.as_slice(),
        Told::Taken(got) => handles_in(got),
        _ => &[],
    }
}

/// The pendings that come with a reply.
pub(crate) fn pendings_handed(alloc: Global, told: &Told) -> Result<Vec<PendingId>, AllocError>
    ensures { IfOk result (λ pendings. pendings.items ≡ pendings_handed told.now) }
{
    match told {
        Told::Associated(pending) => Vec::from_slice(alloc, &[*pending]),
        Told::Taken(got) => Vec::from_slice(alloc, pendings_in(got)),
        _ => Ok(Vec::new(alloc)),
    }
}

/// Whether what was asked was done.
pub(crate) fn is_done(told: &Told) -> bool
    ensures { result ≡ is_done told.now }
{
    match told {
        Told::No(_) => false,
        _ => true,
    }
}

/// The right to answer that comes with a message got at an end, where that is a request with a response.
fn right_of(schema: &Schema, end: EndId, got: &Got) -> Option<ResponderId>
    ensures { list_of result ≡ responders_handed (wire_of schema.now) (tells.Taken got.now) (asks.Take end) }
{
    let target = got.target;
    if !gives_responder(schema, target) {
        return None;
    }
    Some(ResponderId {
        end,
        id: got.id,
        request: got.request,
        interface: target.interface,
        method: target.method,
    })
}

/// The same, where what was got lies apart.
fn right_in(schema: &Schema, end: EndId, got: &Boxed<Got>) -> Option<ResponderId>
    ensures { list_of result ≡ responders_handed (wire_of schema.now) (tells.Taken got.now) (asks.Take end) }
{
    right_of(schema, end, got.get())
}

/// The right to answer that comes with an event.
pub fn responder_of(schema: &Schema, event: &Event) -> Option<ResponderId>
    ensures { list_of result ≡ responders_handed (wire_of schema.now) event.now.told event.now.asked }
{
    match &event.told {
        Told::Taken(got) => match &event.asked {
            Asked::Take(end) => right_in(schema, *end, got),
            _ => None,
        },
        _ => None,
    }
}
