//! The lines of all sequences, one at a time.

ghost use Rattle.std.specs.Prelude.{ℕ, ◌≡◌, ◌≤◌, [], length, map, IfErr, IfSome, OnOk};
ghost use Rattle.call_script.specs.Sound.{IsLine, IsScript};
ghost use Rattle.mj_base.specs.declared.limits.TheConstants.{MAX_FILE_BYTES};
ghost use Rattle.script_run.specs.OfScript.{GoesOn, next_join};
ghost use Rattle.script_run.specs.Draining.{IsUnspent};
ghost use Rattle.script_run.specs.steps.Cutting.{CutLine};
ghost use Rattle.script_run.specs.steps.Desks.{IfSpent};
ghost use Rattle.script_run.specs.Draining.{HaveRested, past_in};
ghost use Rattle.script_run.specs.steps.Going.{HasDone, Played};
ghost use Rattle.script_run.specs.steps.Orders.{AreInOrder};
ghost use Rattle.script_run.specs.steps.Running.{AreDone, AreLines, DidTurn, IsRunning};
ghost use Rattle.script_run.specs.Rooms.{AreUnnamed};

use crate::cut::Cut;
use crate::desks::{leave, put_to_rest, wake};
use crate::draining::{Drained, cut_off, drain};
use crate::joins::do_joins;
use crate::plain::Plain;
use crate::worker::do_line;
use bind_core::Core;
use call_script::{Line, Script};
use mj_schema::Schema;
use remote_receiver::Rest;
use script_names::Rooms;
use std::alloc::Global;

/// Room for what each of so many sequences holds.
fn add_rooms(rooms: &mut Vec<Rooms>, alloc: Global, script: &Script) -> Result<(), Cut>
    requires { rooms.old.items ≡ [] }
    ensures { OnOk result (AreUnnamed script.now.seqs 0 rooms.new.items) }
{
    if rooms.reserve(script.seqs as usize).is_err() {
        return Err(Cut::Memory);
    }
    for _ in 0..script.seqs {
        rooms.push_reserved(Rooms::new(alloc));
    }
    Ok(())
}

/// Gives each sequence the names of the script.
fn add_names(rooms: &mut [Rooms], names: usize) -> Result<(), Cut>
    requires { AreUnnamed (length rooms.old) 0 rooms.old }
    ensures { OnOk result (AreUnnamed (length rooms.old) names rooms.new) }
{
    for room in rooms {
        if room.add_names(names).is_err() {
            return Err(Cut::Memory);
        }
    }
    Ok(())
}

/// A room for each sequence, with the names of the script, which stand for nothing.
pub fn open_rooms(rooms: &mut Vec<Rooms>, alloc: Global, script: &Script) -> Result<(), Cut>
    requires { rooms.old.items ≡ [] }
    ensures { OnOk result (AreUnnamed script.now.seqs script.now.names rooms.new.items) }
{
    add_rooms(rooms, alloc, script)?;
    add_names(rooms, script.names)
}

/// Lets a sequence do a line, with the automatic reply that is due then.
fn turn(
    core: Core,
    rests: &mut [Rest<Plain>],
    rooms: &mut [Rooms],
    alloc: Global,
    schema: &Schema,
    script: &Script,
    line: &Line,
) -> (Core, Result<(), Cut>)
    requires script { IsScript schema.now script.now }
    requires line { IsLine schema.now script.now.seqs script.now.names line.now }
    requires running { IsRunning schema.now script.now core rests.old rooms.old }
    ensures did { OnOk result.1 (DidTurn schema.now script.now line.now core result.0 rests.new rooms.old rooms.new) }
    ensures cut { IfErr result.1 (λ cut. IfSpent cut (CutLine script.now line.now core result.0 rooms.old)) }
{
    let seq = line.seq;
    let autos = script.autos.as_slice();
    let mut desk = wake(rests, alloc, core, seq);
    let room = &mut rooms[seq.0 as usize];
    match do_line(&mut desk, room, alloc, schema, autos, line) {
        Ok(()) => {
            let core = put_to_rest(rests, desk);
            // Its events are legal.
            let _history = core.history();
            (core, Ok(()))
        }
        Err(cut) => {
            let core = leave(desk);
            // Its events are legal.
            let _history = core.history();
            (core, Err(cut))
        }
    }
}

/// Does lines, in order, each by its sequence.
fn do_lines(
    core: Core,
    rests: &mut [Rest<Plain>],
    rooms: &mut [Rooms],
    alloc: Global,
    schema: &Schema,
    script: &Script,
    lines: &[&Line],
) -> (Core, Result<(), Cut>)
    requires script { IsScript schema.now script.now }
    requires lines { AreLines schema.now script.now (map (λ line. line.now) lines.now) }
    requires running { IsRunning schema.now script.now core rests.old rooms.old }
    ensures running { OnOk result.1 (IsRunning schema.now script.now result.0 rests.new rooms.new) }
    ensures done { (order : ℕ) → AreInOrder script.now order (map (λ line. line.now) lines.now)
        → HasDone schema.now script.now order (past_in core) (map (λ line. line.now) lines.now) 0 core rests.old rooms.old
        → OnOk result.1 (HasDone schema.now script.now order (past_in core) (map (λ line. line.now) lines.now)
        (length (map (λ line. line.now) lines.now)) result.0 rests.new rooms.new) }
    ensures unspent { (order : ℕ) → script.now.bytes ≤ MAX_FILE_BYTES → AreInOrder script.now order (map (λ line. line.now) lines.now)
        → GoesOn (next_join script.now) (past_in core)
        → HasDone schema.now script.now order (past_in core) (map (λ line. line.now) lines.now) 0 core rests.old rooms.old
        → IfErr result.1 IsUnspent }
{
    let mut core = core;
    for line in lines {
        let (back, done) = turn(core, rests, rooms, alloc, schema, script, *line);
        core = back;
        if let Err(cut) = done {
            return (core, Err(cut));
        }
    }
    (core, Ok(()))
}

/// Does the joins, and then the lines in the order that is given.
fn do_all(
    core: Core,
    rests: &mut [Rest<Plain>],
    rooms: &mut [Rooms],
    alloc: Global,
    schema: &Schema,
    script: &Script,
    lines: &[&Line],
) -> (Core, Result<(), Cut>)
    requires script { IsScript schema.now script.now }
    requires schema { core.schema ≡ schema.now }
    requires seqs { core.seqs ≡ script.now.seqs }
    requires fresh { core.events ≡ [] }
    requires lines { AreLines schema.now script.now (map (λ line. line.now) lines.now) }
    requires rested { HaveRested core rests.old }
    requires rooms { AreUnnamed script.now.seqs script.now.names rooms.old }
    ensures running { OnOk result.1 (IsRunning schema.now script.now result.0 rests.new rooms.new) }
    ensures done { (order : ℕ) → AreInOrder script.now order (map (λ line. line.now) lines.now)
        → OnOk result.1 (AreDone schema.now script.now order result.0) }
    ensures unspent { (order : ℕ) → script.now.bytes ≤ MAX_FILE_BYTES → AreInOrder script.now order (map (λ line. line.now) lines.now)
        → IfErr result.1 IsUnspent }
{
    let (core, done) = do_joins(core, rests, rooms, alloc, schema, script.lines.as_slice());
    match done {
        Ok(()) => do_lines(core, rests, rooms, alloc, schema, script, lines),
        Err(cut) => (core, Err(cut)),
    }
}

/// Plays a whole script on a core without events, its lines in the order that is given. What the sequences
/// hold then is added to the rooms.
pub fn play(
    core: Core,
    rooms: &mut Vec<Rooms>,
    alloc: Global,
    schema: &Schema,
    script: &Script,
    lines: &[&Line],
    rests: Vec<Rest<Plain>>,
) -> Drained
    requires script { IsScript core.schema script.now }
    requires schema { core.schema ≡ schema.now }
    requires seqs { core.seqs ≡ script.now.seqs }
    requires fresh { core.events ≡ [] }
    requires lines { AreLines core.schema script.now (map (λ line. line.now) lines.now) }
    requires rested { HaveRested core rests.items }
    requires none { rooms.old.items ≡ [] }
    ensures played { (order : ℕ) → AreInOrder script.now order (map (λ line. line.now) lines.now) → Played core.schema script.now order result }
    ensures unspent { (order : ℕ) → script.now.bytes ≤ MAX_FILE_BYTES → AreInOrder script.now order (map (λ line. line.now) lines.now)
        → IfSome result.cut IsUnspent }
{
    if open_rooms(rooms, alloc, script).is_err() {
        return cut_off(core, Rooms::new(alloc), Cut::Memory);
    }
    let mut rests = rests;
    let (core, done) = do_all(core, &mut rests, rooms, alloc, schema, script, lines);
    match done {
        Ok(()) => drain(alloc, core, schema, script, rests),
        Err(cut) => cut_off(core, Rooms::new(alloc), cut),
    }
}
