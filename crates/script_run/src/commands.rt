//! Commands at a desk.

ghost use Rattle.std.specs.Prelude.{◌≡◌, ◌<◌};
ghost use Rattle.bind_model.specs.Plain.{IsOf};
ghost use Rattle.remote_receiver.specs.Held.{kept_of};
ghost use Rattle.script_run.specs.AtDesk.{Served, seen_by};
ghost use Rattle.script_run.specs.steps.Desks.{answered_as};

use crate::plain::{Plain, job_for};
use bind_model::{Command, Refused, Reply, Stepper};
use mj_schema::Schema;
use remote_receiver::{CallRefused, Desk, Sent};
use std::alloc::Global;

/// What a call answers, as a reply. A callback that comes back is let go.
fn answered_as(sent: Result<Sent, CallRefused<Plain>>) -> Result<Reply, Refused>
    ensures { result ≡ answered_as sent }
{
    match sent {
        Ok(Sent { request, bytes }) => Ok(Reply::Sent(request, bytes)),
        Err(CallRefused::No(why, command, _)) => Ok(Reply::No(why, command)),
        Err(CallRefused::Memory(command, _)) => Err(Refused::Memory(command)),
        Err(CallRefused::Spent(command, _)) => Err(Refused::Spent(command)),
    }
}

/// Does a command at a desk, with the callback that comes with it.
pub fn serve<P: Stepper>(
    desk: &mut Desk<Plain, P>,
    alloc: Global,
    schema: &Schema,
    command: Command,
) -> Result<Reply, Refused>
    requires seq { (P.me desk.old.stepper).0 < P.seqs desk.old.stepper }
    requires schema { P.schema desk.old.stepper ≡ schema.now }
    requires prepared { IsOf (P.schema desk.old.stepper) command }
    ensures served { Served (seen_by P.schema P.seqs P.alone P.me P.seen desk.old.stepper) (seen_by P.schema P.seqs P.alone P.me P.seen desk.new.stepper)
        command (kept_of desk.old.jobs) (kept_of desk.new.jobs) result }
    ensures home { P.home desk.new.stepper ≡ P.home desk.old.stepper }
{
    match command {
        Command::Call(end, id, prepared, handles, pendings, moment) => {
            let job = job_for(schema, &prepared);
            answered_as(desk.call(alloc, end, id, prepared, handles, pendings, job, moment))
        }
        Command::Take(end) => desk.take(alloc, end),
        other => desk.step(alloc, other),
    }
}
