//! The desks of a core's sequences, of which one at a time has the core.

ghost use Rattle.std.specs.Prelude.{◌≡◌, ◌<◌, ◌≤◌, ◌++◌, [], length, IfOk, OnOk};
ghost use Rattle.mj_base.specs.declared.limits.TheConstants.{MAX_EVENTS};
ghost use Rattle.mj_schema.specs.declared.schema.Schema.{Schema as schema};
ghost use Rattle.bind_model.specs.Replies.{Legal};
ghost use Rattle.bind_model.specs.Seen.{own_of};
ghost use Rattle.bind_model.specs.WireOf.{wire_of};
ghost use Rattle.remote_receiver.specs.Held.{kept_of};
ghost use Rattle.callback_laws.specs.Callbacks.{callbacks, callbacks_in};
ghost use Rattle.script_run.specs.steps.Ending.{HasCalled, HasEnded, RestsAt};
ghost use Rattle.script_run.specs.Draining.{HaveRested};
ghost use Rattle.script_run.specs.steps.Going.{IsPutBack, IsWoken};

use crate::callbacks::push_shown;
use crate::plain::Plain;
use crate::seat::Seat;
use bind_core::Core;
use history_text::Note;
use mj_base::{Items, SeqId};
use remote_receiver::{Desk, Rest};
use script_names::NoMemory;
use std::alloc::Global;
use std::mem;

/// The desk of a sequence, with the core, which has seen the calls of the desk.
fn wake_one(rests: &mut [Rest<Plain>], alloc: Global, core: Core, seq: SeqId) -> Desk<Plain, Seat>
    requires within { seq.0 < length rests.old }
    requires called { HasCalled core seq rests.old }
    ensures { IsWoken seq core rests.old rests.new result.stepper.core result.stepper.seq (kept_of result.jobs) }
{
    let rest = mem::replace(&mut rests[seq.0 as usize], Rest::new(alloc));
    rest.wake(Seat { core, seq })
}

/// The desk of a sequence, with the core.
pub fn wake(rests: &mut [Rest<Plain>], alloc: Global, core: Core, seq: SeqId) -> Desk<Plain, Seat>
    requires rested { HaveRested core rests.old }
    requires seq { seq.0 < core.seqs }
    ensures { IsWoken seq core rests.old rests.new result.stepper.core result.stepper.seq (kept_of result.jobs) }
{
    wake_one(rests, alloc, core, seq)
}

/// Puts a desk to rest: its core.
pub fn put_to_rest(rests: &mut [Rest<Plain>], desk: Desk<Plain, Seat>) -> Core
    requires { desk.stepper.seq.0 < length rests.old }
    ensures core { result ≡ desk.stepper.core }
    ensures rests { IsPutBack desk.stepper.seq rests.old rests.new (kept_of desk.jobs) desk.stepper.core }
{
    let (Seat { core, seq }, rest) = desk.rest();
    rests[seq.0 as usize] = rest;
    core
}

/// The core of a desk that nobody needs any more.
pub fn leave(desk: Desk<Plain, Seat>) -> Core
    ensures { result ≡ desk.stepper.core }
{
    let (Seat { core, seq: _ }, _rest) = desk.rest();
    core
}

/// Desks without callbacks, at rest, one for each sequence.
pub fn at_rest(alloc: Global, seqs: u32) -> Result<Vec<Rest<Plain>>, NoMemory>
    ensures { IfOk result (λ rests. (schema : schema) → HaveRested (record { schema = schema; seqs = seqs; events = [] }) rests.items) }
{
    let mut rests = Vec::new(alloc);
    for _ in 0..seqs {
        if rests.push(Rest::new(alloc)).is_err() {
            return Err(NoMemory);
        }
    }
    Ok(rests)
}

/// Ends the desk of a sequence: the core, and what became of its callbacks behind those before.
fn finish_one(
    alloc: Global,
    core: Core,
    seq: SeqId,
    rests: &mut [Rest<Plain>],
    notes: &mut Vec<Note>,
) -> (Core, Result<(), NoMemory>)
    requires within { seq.0 < length rests.old }
    requires rested { RestsAt core seq rests.old }
    requires legal { Legal (wire_of core.schema) core.seqs core.events }
    requires few { length core.events ≤ MAX_EVENTS }
    ensures core { result.0 ≡ core }
    ensures rests { HasEnded seq rests.old rests.new }
    ensures notes { OnOk result.1 (notes.new.items ≡ notes.old.items ++ callbacks_in (own_of seq core.events)) }
{
    let desk = wake_one(rests, alloc, core, seq);
    let (Seat { core, seq }, own) = desk.finish();
    match push_shown(notes, seq, own.as_slice()) {
        Ok(()) => (core, Ok(())),
        Err(_) => (core, Err(NoMemory)),
    }
}

/// Ends the desks of so many sequences: the core, and what became of the callbacks, by sequence and by call.
pub fn finish(
    alloc: Global,
    core: Core,
    seqs: u32,
    rests: Vec<Rest<Plain>>,
) -> (Core, Result<Items<Note>, NoMemory>)
    requires rested { HaveRested core rests.items }
    requires seqs { core.seqs ≡ seqs }
    requires legal { Legal (wire_of core.schema) core.seqs core.events }
    requires few { length core.events ≤ MAX_EVENTS }
    ensures core { result.0 ≡ core }
    ensures notes { IfOk result.1 (λ notes. notes ≡ callbacks seqs core.events) }
{
    let mut rests = rests;
    let mut core = core;
    let mut notes = Vec::new(alloc);
    for seq in 0..seqs {
        let (back, done) = finish_one(alloc, core, SeqId(seq), &mut rests, &mut notes);
        core = back;
        if let Err(NoMemory) = done {
            return (core, Err(NoMemory));
        }
    }
    (core, Ok(Items::from_vec(notes)))
}
