//! All lines of one sequence.

ghost use Rattle.std.specs.Prelude.{◌≡◌, ◌<◌, ◌≤◌, ◌+◌, ◌++◌, [], ◌∷◌, true, Err, IfNone, IfOk, IfSome, OnErr, OnOk, Some, length};
ghost use Rattle.std.specs.List.{AllByRecursion};
ghost use Rattle.mj_base.specs.declared.limits.TheConstants.{MAX_EVENTS, MAX_SCRIPT_LINES};
ghost use Rattle.call_script.specs.Sound.{IsLine, IsReply, IsScript};
ghost use Rattle.remote_receiver.specs.Held.{kept_of};
ghost use Rattle.script_names.specs.Asking.{asked_by};
ghost use Rattle.step_gate.specs.declared.GateCall.TheVariants as calls_of;
ghost use Rattle.script_run.specs.Order.{is_own, lines_of};
ghost use Rattle.script_run.specs.AtDesk.{IsLater, SameDesk, seen_by};
ghost use Rattle.script_names.specs.Held.{HaveNames, names_in};
ghost use Rattle.script_run.specs.Working.{CallsAll, CallsSome, CutWork, Works};
ghost use Rattle.script_run.specs.steps.Desks.{CameTo};
ghost use Rattle.script_run.specs.steps.Working.{DidOwn, calls_by, steps_by};

use crate::cut::Cut;
use crate::order::is_join;
use crate::plain::Plain;
use crate::worker::do_line;
use bind_model::Stepper;
use call_script::{AutoReply, Line, Script};
use mj_base::SeqId;
use mj_schema::Schema;
use remote_receiver::Desk;
use script_names::Rooms;
use std::alloc::Global;
use step_gate::Gate;

/// What a sequence leaves that did its lines: its desk, what it holds, and why it was cut off, if it was.
pub struct Worked<P: Stepper> {
    pub desk: Desk<Plain, P>,
    pub held: Rooms,
    pub cut: Option<Cut>,
}

/// Whether a line is one of this sequence's own, behind the joins.
fn is_mine(line: &Line, seq: SeqId) -> bool
    ensures { result ≡ is_own seq line.now }
{
    seq.0 == line.seq.0 && !is_join(&line.command)
}

/// Does a line with its automatic reply, where it is the sequence's own, of which so many were done before:
/// how many were done then.
fn do_own<P: Stepper, G: Gate>(
    desk: &mut Desk<Plain, P>,
    rooms: &mut Rooms,
    alloc: Global,
    schema: &Schema,
    autos: &[AutoReply],
    line: &Line,
    gate: &mut G,
    number: u64,
) -> Result<u64, Cut>
    requires seq { (P.me desk.old.stepper).0 < P.seqs desk.old.stepper }
    requires schema { P.schema desk.old.stepper ≡ schema.now }
    requires line { IsLine (P.schema desk.old.stepper) (P.seqs desk.old.stepper) (length rooms.old.stands.things.items) line.now }
    requires autos { AllByRecursion (IsReply (P.schema desk.old.stepper) (P.seqs desk.old.stepper)) autos.now }
    requires names { HaveNames (length rooms.old.stands.things.items) rooms.old }
    requires number { number < MAX_SCRIPT_LINES }
    ensures home { P.home desk.new.stepper ≡ P.home desk.old.stepper }
    ensures later { IsLater (seen_by P.schema P.seqs P.alone P.me P.seen desk.old.stepper)
        (seen_by P.schema P.seqs P.alone P.me P.seen desk.new.stepper) }
    ensures came { OnErr result ((is_own (P.me desk.old.stepper) line.now ≡ true)
        × CameTo autos.now (asked_by (names_in rooms.old) line.now) (seen_by P.schema P.seqs P.alone P.me P.seen desk.old.stepper)
        (seen_by P.schema P.seqs P.alone P.me P.seen desk.new.stepper)) }
    ensures same { OnOk result (SameDesk (seen_by P.schema P.seqs P.alone P.me P.seen desk.old.stepper)
        (seen_by P.schema P.seqs P.alone P.me P.seen desk.new.stepper)) }
    ensures did { OnOk result (DidOwn (is_own (P.me desk.old.stepper) line.now) autos.now line.now
        (seen_by P.schema P.seqs P.alone P.me P.seen desk.old.stepper) (seen_by P.schema P.seqs P.alone P.me P.seen desk.new.stepper)
        (kept_of desk.old.jobs) (kept_of desk.new.jobs) (names_in rooms.old) (names_in rooms.new)) }
    ensures names { OnOk result (HaveNames (length rooms.old.stands.things.items) rooms.new) }
    ensures number { IfOk result (λ done. done ≡ number + steps_by (is_own (P.me desk.old.stepper) line.now)) }
    ensures gate { OnOk result (G.calls gate.new ≡ G.calls gate.old ++ calls_by (is_own (P.me desk.old.stepper) line.now) (P.me desk.old.stepper) number) }
    ensures begun { OnErr result (G.calls gate.new ≡ G.calls gate.old ++ calls_of.Before (P.me desk.old.stepper) number ∷ []) }
    ensures spent { result ≡ Err Cut.Spent → MAX_EVENTS ≤ length (P.seen desk.new.stepper) }
{
    let seq = desk.stepper().seq();
    if !is_mine(line, seq) {
        return Ok(number);
    }
    gate.before(seq, number);
    do_line(desk, rooms, alloc, schema, autos, line)?;
    gate.after(seq, number);
    Ok(number + 1)
}

/// Does the lines of a desk's sequence, in order, each with its automatic reply, with what the joins gave it
/// under its names. It is cut off as spent only where the history that its stepper has seen then is full.
pub fn work_on<P: Stepper, G: Gate>(
    desk: &mut Desk<Plain, P>,
    rooms: &mut Rooms,
    alloc: Global,
    schema: &Schema,
    script: &Script,
    gate: &mut G,
) -> Result<(), Cut>
    requires seq { (P.me desk.old.stepper).0 < P.seqs desk.old.stepper }
    requires schema { P.schema desk.old.stepper ≡ schema.now }
    requires script { IsScript (P.schema desk.old.stepper) script.now }
    requires seqs { P.seqs desk.old.stepper ≡ script.now.seqs }
    requires names { HaveNames script.now.names rooms.old }
    ensures home { P.home desk.new.stepper ≡ P.home desk.old.stepper }
    ensures later { IsLater (seen_by P.schema P.seqs P.alone P.me P.seen desk.old.stepper)
        (seen_by P.schema P.seqs P.alone P.me P.seen desk.new.stepper) }
    ensures part { OnErr result (CutWork script.now (seen_by P.schema P.seqs P.alone P.me P.seen desk.old.stepper)
        (seen_by P.schema P.seqs P.alone P.me P.seen desk.new.stepper) rooms.old) }
    ensures works { OnOk result (Works script.now (seen_by P.schema P.seqs P.alone P.me P.seen desk.old.stepper)
        (seen_by P.schema P.seqs P.alone P.me P.seen desk.new.stepper) (kept_of desk.old.jobs) (kept_of desk.new.jobs) rooms.old rooms.new) }
    ensures gate { OnOk result (CallsAll (P.me desk.old.stepper) (length (lines_of script.now (P.me desk.old.stepper)))
        (G.calls gate.old) (G.calls gate.new)) }
    ensures begun { OnErr result (CallsSome (P.me desk.old.stepper) (length (lines_of script.now (P.me desk.old.stepper)))
        (G.calls gate.old) (G.calls gate.new)) }
    ensures spent { result ≡ Err Cut.Spent → MAX_EVENTS ≤ length (P.seen desk.new.stepper) }
{
    let autos = script.autos.as_slice();
    let mut number = 0;
    for line in script.lines.as_slice() {
        number = do_own(desk, rooms, alloc, schema, autos, line, gate, number)?;
    }
    Ok(())
}

/// Does the lines of a desk's sequence as `work_on` does, and hands all back.
pub fn work<P: Stepper, G: Gate>(
    alloc: Global,
    schema: &Schema,
    desk: Desk<Plain, P>,
    script: &Script,
    held: Rooms,
    gate: &mut G,
) -> Worked<P>
    requires seq { (P.me desk.stepper).0 < P.seqs desk.stepper }
    requires schema { P.schema desk.stepper ≡ schema.now }
    requires script { IsScript (P.schema desk.stepper) script.now }
    requires seqs { P.seqs desk.stepper ≡ script.now.seqs }
    requires names { HaveNames script.now.names held }
    ensures home { P.home result.desk.stepper ≡ P.home desk.stepper }
    ensures later { IsLater (seen_by P.schema P.seqs P.alone P.me P.seen desk.stepper)
        (seen_by P.schema P.seqs P.alone P.me P.seen result.desk.stepper) }
    ensures part { IfSome result.cut (λ cut. CutWork script.now (seen_by P.schema P.seqs P.alone P.me P.seen desk.stepper)
        (seen_by P.schema P.seqs P.alone P.me P.seen result.desk.stepper) held) }
    ensures works { IfNone result.cut (Works script.now (seen_by P.schema P.seqs P.alone P.me P.seen desk.stepper)
        (seen_by P.schema P.seqs P.alone P.me P.seen result.desk.stepper) (kept_of desk.jobs) (kept_of result.desk.jobs) held result.held) }
    ensures gate { IfNone result.cut (CallsAll (P.me desk.stepper) (length (lines_of script.now (P.me desk.stepper)))
        (G.calls gate.old) (G.calls gate.new)) }
    ensures begun { IfSome result.cut (λ cut. CallsSome (P.me desk.stepper) (length (lines_of script.now (P.me desk.stepper)))
        (G.calls gate.old) (G.calls gate.new)) }
    ensures spent { result.cut ≡ Some Cut.Spent → MAX_EVENTS ≤ length (P.seen result.desk.stepper) }
{
    let mut desk = desk;
    let mut held = held;
    let cut = work_on(&mut desk, &mut held, alloc, schema, script, gate).err();
    Worked { desk, held, cut }
}
