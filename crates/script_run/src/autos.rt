//! Which automatic reply is due.

ghost use Rattle.std.specs.Prelude.{◌≡◌, find};
ghost use Rattle.std.specs.Option.{option_copied};
ghost use Rattle.bind_model.specs.Plain.{responders_in};
ghost use Rattle.script_names.specs.Autos.{replies_to, due_for};
ghost use Rattle.script_run.specs.steps.Desks.{reply_of};

use bind_model::{Reply, ResponderId};
use call_script::AutoReply;
use mj_base::SeqId;

/// Whether a sequence answers requests of this responder's method with it.
fn replies_to(seq: SeqId, responder: ResponderId, reply: &AutoReply) -> bool
    ensures { result ≡ replies_to seq responder reply.now }
{
    let target = reply.prepared.target;
    reply.seq.0 == seq.0
        && target.interface == responder.interface
        && target.method == responder.method
}

/// The first one of a sequence that is for this responder.
pub fn reply_to(autos: &[AutoReply], seq: SeqId, responder: ResponderId) -> Option<&AutoReply>
    ensures { option_copied result ≡ find (replies_to seq responder) autos.now }
{
    autos
        .iter()
        .find(|reply| replies_to(seq, responder, *reply))
}

/// The one that is due after a sequence's command was told this.
pub fn due_after<'s>(autos: &'s [AutoReply], seq: SeqId, reply: &Reply) -> Option<&'s AutoReply>
    ensures { option_copied result ≡ reply_of (due_for autos.now seq (responders_in reply.now)) }
{
    match reply {
        Reply::Got(received) => match &received.responder {
            Some(responder) => reply_to(autos, seq, responder.id()),
            None => None,
        },
        Reply::Made(_)
        | Reply::Bound(_)
        | Reply::Associated(_)
        | Reply::Attached(_)
        | Reply::Sent(_, _)
        | Reply::Wrote(_)
        | Reply::Dropped(_, _)
        | Reply::Control(_)
        | Reply::Bad(_, _)
        | Reply::Closed(_)
        | Reply::Notified(_)
        | Reply::Pausing
        | Reply::Flowed(_, _)
        | Reply::Skipped
        | Reply::No(_, _) => None,
    }
}
