//! The drain of a run.

ghost use Rattle.std.specs.Prelude.{◌≡◌, ◌<◌, ◌≤◌, ◌++◌, List, Err, Some, IfErr, IfSome, OnErr, OnOk, length};
ghost use Rattle.mj_base.specs.declared.ids.SeqId.{SeqId as seq_id};
ghost use Rattle.mj_base.specs.declared.limits.TheConstants.{MAX_EVENTS, MAX_FILE_BYTES};
ghost use Rattle.bind_model.specs.declared.event.Event.{Event as event};
ghost use Rattle.bind_model.specs.Seen.{own_of};
ghost use Rattle.bind_model.specs.WireOf.{wire_of};
ghost use Rattle.call_script.specs.Sound.{IsScript};
ghost use Rattle.script_run.specs.OfScript.{AsksNext, GoesOn, IsPart, next_join, next_of, next_take};
ghost use Rattle.script_run.specs.Draining.{IsUnspent};
ghost use Rattle.script_run.specs.steps.Cutting.{CutTake, PartTake};
ghost use Rattle.script_run.specs.steps.Desks.{IfSpent};
ghost use Rattle.script_run.specs.Draining.{DrainedOf, DrainedPart, HasDrained, HaveRested, IsCoreOf, past_in};
ghost use Rattle.script_run.specs.steps.Running.{TookTurn};

use crate::cut::Cut;
use crate::desks::{finish, leave, put_to_rest, wake};
use crate::plain::Plain;
use crate::worker::take;
use bind_core::Core;
use call_script::Script;
use history_text::Note;
use mj_base::{EndId, Items, SeqId};
use mj_schema::Schema;
use remote_receiver::Rest;
use script_names::{NoMemory, Rooms};
use std::alloc::Global;

/// What a drain leaves: the core, what became of each callback, what was taken, and why it was cut off, if
/// it was: then nothing is said of callbacks.
pub struct Drained {
    pub core: Core,
    pub notes: Result<Items<Note>, NoMemory>,
    pub held: Rooms,
    pub cut: Option<Cut>,
}

/// Lets a sequence take at an end, with the automatic reply that is due then.
fn turn(
    core: Core,
    rests: &mut [Rest<Plain>],
    held: &mut Rooms,
    alloc: Global,
    schema: &Schema,
    script: &Script,
    seq: SeqId,
    end: EndId,
) -> (Core, Result<(), Cut>)
    requires script { IsScript schema.now script.now }
    requires core { IsCoreOf schema.now script.now core }
    requires rested { HaveRested core rests.old }
    requires seq { seq.0 < core.seqs }
    ensures took { OnOk result.1 (TookTurn schema.now script.now seq end core result.0 rests.new) }
    ensures cut { IfErr result.1 (λ cut. IfSpent cut (CutTake script.now seq end core result.0)) }
    ensures part { OnErr result.1 (PartTake script.now seq end core result.0) }
{
    let autos = script.autos.as_slice();
    let mut desk = wake(rests, alloc, core, seq);
    match take(&mut desk, held, alloc, schema, autos, end) {
        Ok(()) => {
            let core = put_to_rest(rests, desk);
            // Its events are legal.
            let _history = core.history();
            (core, Ok(()))
        }
        Err(cut) => {
            let core = leave(desk);
            // Its events are legal.
            let _history = core.history();
            (core, Err(cut))
        }
    }
}

/// Takes wherever a message is ready, until none is.
fn take_all(
    core: Core,
    rests: &mut [Rest<Plain>],
    held: &mut Rooms,
    alloc: Global,
    schema: &Schema,
    script: &Script,
) -> (Core, Result<(), Cut>)
    requires script { IsScript schema.now script.now }
    requires drained { HasDrained schema.now script.now (past_in core) core rests.old }
    ensures drained { OnOk result.1 (HasDrained schema.now script.now (past_in core) result.0 rests.new) }
    ensures part { OnOk result.1 (IsPart (next_take (wire_of schema.now) script.now.autos (past_in core)) (past_in core) (past_in result.0)) }
    ensures cut { OnErr result.1 (DrainedPart schema.now script.now (past_in core) result.0) }
    ensures spent { result.1 ≡ Err Cut.Spent → MAX_EVENTS ≤ length result.0.events }
    ensures unspent { (after_joins middle : List event) → script.now.bytes ≤ MAX_FILE_BYTES → past_in core ≡ middle ++ after_joins
        → GoesOn (next_join script.now) after_joins
        → ((s : seq_id) → s.0 < script.now.seqs → AsksNext (next_of (wire_of schema.now) script.now after_joins s) (own_of s middle))
        → IfErr result.1 IsUnspent }
{
    let mut core = core;
    while let Some((seq, end)) = core.ready() {
        let (back, done) = turn(core, rests, held, alloc, schema, script, seq, end);
        core = back;
        if let Err(cut) = done {
            return (core, Err(cut));
        }
    }
    (core, Ok(()))
}

/// What a run that was cut off leaves.
pub fn cut_off(core: Core, held: Rooms, cut: Cut) -> Drained
    ensures cut { result.cut ≡ Some cut }
    ensures core { result.core ≡ core }
{
    Drained {
        core,
        notes: Err(NoMemory),
        held,
        cut: Some(cut),
    }
}

/// Takes wherever a message is ready, until none is, with automatic replies, and ends the desks, of which
/// each sequence has one, at rest. Where it is cut off, the core has the takes so far, and it is cut off as
/// spent only where its history is full.
pub fn drain(
    alloc: Global,
    core: Core,
    schema: &Schema,
    script: &Script,
    rests: Vec<Rest<Plain>>,
) -> Drained
    requires script { IsScript core.schema script.now }
    requires schema { core.schema ≡ schema.now }
    requires drained { HasDrained core.schema script.now (past_in core) core rests.items }
    ensures drained { DrainedOf core.schema script.now (past_in core) result }
    ensures cut { IfSome result.cut (λ cut. DrainedPart core.schema script.now (past_in core) result.core) }
    ensures spent { result.cut ≡ Some Cut.Spent → MAX_EVENTS ≤ length result.core.events }
    ensures unspent { (after_joins middle : List event) → script.now.bytes ≤ MAX_FILE_BYTES → past_in core ≡ middle ++ after_joins
        → GoesOn (next_join script.now) after_joins
        → ((s : seq_id) → s.0 < script.now.seqs → AsksNext (next_of (wire_of schema.now) script.now after_joins s) (own_of s middle))
        → IfSome result.cut IsUnspent }
{
    let mut rests = rests;
    let mut held = Rooms::new(alloc);
    let (core, done) = take_all(core, &mut rests, &mut held, alloc, schema, script);
    match done {
        Ok(()) => {
            let (core, notes) = finish(alloc, core, script.seqs, rests);
            Drained {
                core,
                notes,
                held,
                cut: None,
            }
        }
        Err(cut) => cut_off(core, held, cut),
    }
}
