//! A desk at rest that is woken for one command, or for its notes.

ghost use Rattle.std.specs.Prelude.{◌≡◌, ◌<◌, ◌≤◌, count_by, length};
ghost use Rattle.mj_base.specs.declared.limits.TheConstants.{MAX_EVENTS};
ghost use Rattle.bind_model.specs.Plain.{IsOf};
ghost use Rattle.bind_model.specs.Replies.{Legal};
ghost use Rattle.bind_model.specs.Seen.{own_of};
ghost use Rattle.bind_model.specs.WireOf.{wire_of};
ghost use Rattle.callback_laws.specs.Callbacks.{callbacks_in};
ghost use Rattle.remote_receiver.specs.Held.{kept_of};
ghost use Rattle.remote_receiver.specs.Waits.{AreDrawn};
ghost use Rattle.remote_receiver.specs.declared.note.Note.{Note as note_of};
ghost use Rattle.script_run.specs.Draining.{HasRested};
ghost use Rattle.script_run.specs.AtDesk.{Served};
ghost use Rattle.load_run.specs.Counts.{ran_of};
ghost use Rattle.load_run.specs.steps.Doing.{at_seat};

use crate::seat::{BoxedCore, Seat};
use bind_model::{Command, Refused, Reply};
use mj_base::SeqId;
use mj_schema::Schema;
use remote_receiver::{Note, Rest};
use script_run::{Plain, serve};
use std::alloc::Global;

/// Does a command at the desk of a sequence, which has the core meanwhile.
pub fn step(
    seat: Seat,
    rest: Rest<Plain>,
    alloc: Global,
    schema: &Schema,
    command: Command,
) -> (Seat, Rest<Plain>, Result<Reply, Refused>)
    requires seq { seat.seq.0 < seat.core.seqs }
    requires schema { seat.core.schema ≡ schema.now }
    requires prepared { IsOf seat.core.schema command }
    requires drawn { AreDrawn seat.core.events rest.jobs.waiting.callbacks }
    ensures served { Served (at_seat seat) (at_seat result.0) command (kept_of rest.jobs) (kept_of result.1.jobs) result.2 }
    ensures drawn { AreDrawn result.0.core.events result.1.jobs.waiting.callbacks }
{
    let mut desk = rest.wake(seat);
    let told = serve(&mut desk, alloc, schema, command);
    let (seat, rest) = desk.rest();
    (seat, rest, told)
}

/// How many of these callbacks ran.
fn count_ran(notes: &[Note]) -> u64
    ensures { result ≡ count_by (λ (note : note_of). note.ran) notes.now }
{
    notes.iter().filter(|note| note.ran).count() as u64
}

/// Ends the desk of a sequence: the core, and how many of its callbacks ran.
pub fn finish(core: BoxedCore, seq: SeqId, rest: Rest<Plain>) -> (BoxedCore, u64)
    requires rested { HasRested core seq rest }
    requires legal { Legal (wire_of core.schema) core.seqs core.events }
    requires few { length core.events ≤ MAX_EVENTS }
    ensures core { result.0 ≡ core }
    ensures ran { result.1 ≡ ran_of (callbacks_in (own_of seq core.events)) }
{
    let desk = rest.wake(Seat { core, seq });
    let (seat, notes) = desk.finish();
    let Seat { core, seq: _ } = seat;
    (core, count_ran(notes.as_slice()))
}
