//! What replies say to the jobs that wait.

ghost use Rattle.std.specs.Prelude.{◌≡◌, true};
ghost use Rattle.bind_model.specs.Plain.{told_of};
ghost use Rattle.bind_model.specs.Replies.{is_response};
ghost use Rattle.bind_model.specs.declared.asked.Asked.TheVariants.{Take};
ghost use Rattle.bind_model.specs.declared.commands.Reply.TheVariants.{Got};
ghost use Rattle.remote_receiver.specs.Due.{IsDue, IsNewest};
ghost use Rattle.remote_receiver.specs.Held.{kept_of};
ghost use Rattle.remote_receiver.specs.Waits.{IsPartOf};
ghost use Rattle.remote_receiver.specs.steps.Doing.{AfterClose, AfterEnd, AfterGot, AfterTake, HeardIf, ended_by, ends_with};

use crate::job::{Answered, Job};
use crate::jobs::Jobs;
use bind_model::{Command, Noted, Received, Reply, Stepper, ToClose, Why};
use mj_base::EndId;
use wire_model::MessageSide;

/// Runs the job that waits for a message, if it is a response and there is one.
fn hear_response<C: Job<P>, P: Stepper>(
    jobs: &mut Jobs<C>,
    stepper: &P,
    side: MessageSide,
    got: &Answered,
)
    requires due { is_response side ≡ true → IsDue (P.me stepper.now) (P.seen stepper.now) got.now }
    ensures heard { HeardIf C.promises (is_response side) got.now (kept_of jobs.old) (kept_of jobs.new) }
    ensures part { IsPartOf jobs.old.waiting.callbacks jobs.new.waiting.callbacks }
{
    if let MessageSide::Response = side {
        jobs.hear(got, stepper);
    }
}

/// Runs the job whose response a take got, if there is one. What was got stays as it is.
fn hear_got<C: Job<P>, P: Stepper>(
    jobs: &mut Jobs<C>,
    stepper: &P,
    end: EndId,
    received: Received,
) -> Received
    requires newest { IsNewest (P.me stepper.now) (P.seen stepper.now) (Take end) (told_of (Got received)) }
    ensures same { result ≡ received }
    ensures heard { AfterGot C.promises end (told_of (Got received)) (kept_of jobs.old) (kept_of jobs.new) }
    ensures part { IsPartOf jobs.old.waiting.callbacks jobs.new.waiting.callbacks }
{
    let Received {
        id,
        target,
        parameters,
        request,
        handles,
        pendings,
        responder,
        gone,
        moment,
    } = received;
    let got = Answered {
        end,
        id,
        request,
        method: target.method,
        value: parameters,
    };
    hear_response(jobs, stepper, target.side, &got);
    let Answered {
        end: _,
        id: _,
        request: _,
        method: _,
        value: parameters,
    } = got;
    Received {
        id,
        target,
        parameters,
        request,
        handles,
        pendings,
        responder,
        gone,
        moment,
    }
}

/// Drops the jobs whose endpoint a take at an end was told to be over.
fn drop_over<C: Drop>(jobs: &mut Jobs<C>, end: EndId, reply: &Reply)
    ensures kept { AfterEnd end (told_of reply.now) (kept_of jobs.old) (kept_of jobs.new) }
    ensures part { IsPartOf jobs.old.waiting.callbacks jobs.new.waiting.callbacks }
{
    match reply {
        Reply::Control(Noted::Closed(id)) => jobs.drop_endpoint(end, *id),
        Reply::Bad(_, _) | Reply::No(Why::PeerClosed, _) => jobs.drop_end(end),
        _ => {}
    }
}

/// Tells the jobs what a take at an end was told, the last command that the stepper did.
pub(crate) fn tell_taken<C: Job<P>, P: Stepper>(
    jobs: &mut Jobs<C>,
    stepper: &P,
    end: EndId,
    reply: Reply,
) -> Reply
    requires newest { IsNewest (P.me stepper.now) (P.seen stepper.now) (Take end) (told_of reply) }
    ensures same { result ≡ reply }
    ensures kept { AfterTake C.promises end (told_of reply) (kept_of jobs.old) (kept_of jobs.new) }
    ensures part { IsPartOf jobs.old.waiting.callbacks jobs.new.waiting.callbacks }
{
    match reply {
        Reply::Got(received) => Reply::Got(hear_got(jobs, stepper, end, received)),
        other => {
            drop_over(jobs, end, &other);
            other
        }
    }
}

/// What a command would end: all endpoints of an end, or one endpoint.
#[derive(Drop)]
pub(crate) enum Ends {
    All(EndId),
    One(EndId, u32),
}

/// What closing the endpoint of this id would end.
fn ends_with(end: EndId, id: u32) -> Ends
    ensures { result ≡ ends_with end id }
{
    if id == 0 {
        Ends::All(end)
    } else {
        Ends::One(end, id)
    }
}

/// What a command would end: the endpoint that it closes, or whose other half it does.
pub(crate) fn ended_by(command: &Command) -> Option<Ends>
    ensures { result ≡ ended_by command.now }
{
    match command {
        Command::Close(ToClose::Endpoint(end, id)) => Some(ends_with(*end, *id)),
        Command::Close(ToClose::Pending(pending)) => {
            let half = pending.id();
            Some(Ends::One(half.end, half.id))
        }
        _ => None,
    }
}

/// Tells the jobs what a command that isn't a call or a take was told, by what it would end.
pub(crate) fn tell_closed<C: Drop>(jobs: &mut Jobs<C>, ends: Option<Ends>, reply: &Reply)
    ensures kept { AfterClose ends (told_of reply.now) (kept_of jobs.old) (kept_of jobs.new) }
    ensures part { IsPartOf jobs.old.waiting.callbacks jobs.new.waiting.callbacks }
{
    let (Some(ends), Reply::Closed(_)) = (ends, reply) else {
        return;
    };
    match ends {
        Ends::All(end) => jobs.drop_end(end),
        Ends::One(end, id) => jobs.drop_endpoint(end, id),
    }
}
