//! The joins of a script, through the passes of their sequences, and what they give to the rooms.

ghost use Rattle.std.specs.Prelude.{◌≡◌, ◌<◌, [], Err, List, OnOk, length};
ghost use Rattle.bind_hub.specs.Hubs.{schema_in, seqs_in};
ghost use Rattle.bind_model.specs.declared.event.Event.{Event as event_of};
ghost use Rattle.call_script.specs.Sound.{IsScript};
ghost use Rattle.call_script.specs.declared.script.Script.{Script as scripts};
ghost use Rattle.handle_table.specs.declared.thing.Thing.{Thing as thing_of};
ghost use Rattle.remote_receiver.specs.declared.rest.Rest.{Rest as rest_of};
ghost use Rattle.script_run.specs.Order.{joins_of};
ghost use Rattle.script_run.specs.Rooms.{Come, GaveBoth};
ghost use Rattle.script_run.specs.declared.plain.Plain.{Plain as plain};
ghost use Rattle.script_run.specs.steps.Going.{HasJoined};
ghost use Rattle.threaded_run.specs.steps.Joins.{HaveJoined, HavePart, IsFull, core_of};
ghost use Rattle.threaded_run.specs.steps.Passes.{ArePasses, HaveAll};

use crate::joining::join_one;
use bind_hub::{Hub, Pass};
use call_script::{Command, Line};
use script_names::Rooms;
use script_run::{Cut, Joint, settle};
use std::alloc::Global;
use std::sync::Wait;

/// A sequence joins with another: all passes have seen it then, and the ends come under their names.
fn join<W: Wait>(
    rt: &W,
    alloc: Global,
    hub: &Hub,
    passes: &mut [Pass],
    rooms: &mut [Rooms],
    joint: Joint,
) -> Result<(), Cut>
    requires within { joint.seq.0 < length passes.old }
    requires other { joint.other.0 < seqs_in hub.now }
    requires count { length passes.old ≡ seqs_in hub.now }
    requires rooms { length rooms.old ≡ seqs_in hub.now }
    requires passes { ArePasses hub.now.turn.board.shared.table_id (schema_in hub.now) (seqs_in hub.now) passes.old }
    ensures len { length passes.new ≡ length passes.old }
    ensures passes { ArePasses hub.now.turn.board.shared.table_id (schema_in hub.now) (seqs_in hub.now) passes.new }
    ensures joined { (joins : List event_of) → HaveAll hub.now.turn.board.shared.table_id (schema_in hub.now) (seqs_in hub.now) joins passes.old
        → OnOk result ((x : thing_of) × (y : thing_of)
        × HaveJoined hub.now.turn.board.shared.table_id (schema_in hub.now) (seqs_in hub.now) joint joins passes.new x y
        × Come (GaveBoth joint x y) rooms.old rooms.new) }
    ensures spent { (joins : List event_of) → HaveAll hub.now.turn.board.shared.table_id (schema_in hub.now) (seqs_in hub.now) joins passes.old
        → result ≡ Err Cut.Spent → HaveAll hub.now.turn.board.shared.table_id (schema_in hub.now) (seqs_in hub.now) joins passes.new
        × IsFull passes.new }
{
    if rooms[joint.seq.0 as usize].make_place().is_err() {
        return Err(Cut::Memory);
    }
    match join_one(rt, alloc, hub, passes, joint) {
        Ok(reply) => settle(rooms, joint, reply),
        Err(cut) => Err(cut),
    }
}

/// Does the joins of a script, in order, and all passes see each.
pub fn do_joins<W: Wait>(
    rt: &W,
    alloc: Global,
    hub: &Hub,
    passes: &mut [Pass],
    rooms: &mut [Rooms],
    lines: &[Line],
) -> Result<(), Cut>
    requires script { (script : scripts) × IsScript (schema_in hub.now) script × (seqs_in hub.now ≡ script.seqs) × (lines.now ≡ script.lines) }
    requires count { length passes.old ≡ seqs_in hub.now }
    requires rooms { length rooms.old ≡ seqs_in hub.now }
    requires passes { ArePasses hub.now.turn.board.shared.table_id (schema_in hub.now) (seqs_in hub.now) passes.old }
    requires fresh { HaveAll hub.now.turn.board.shared.table_id (schema_in hub.now) (seqs_in hub.now) [] passes.old }
    ensures len { length passes.new ≡ length passes.old }
    ensures passes { ArePasses hub.now.turn.board.shared.table_id (schema_in hub.now) (seqs_in hub.now) passes.new }
    ensures joined { (script : scripts) (rests : List (rest_of plain)) → IsScript (schema_in hub.now) script → lines.now ≡ script.lines
        → HasJoined (schema_in hub.now) script 0 (core_of (schema_in hub.now) (seqs_in hub.now) []) rests rooms.old
        → OnOk result ((joins : List event_of)
        × HaveAll hub.now.turn.board.shared.table_id (schema_in hub.now) (seqs_in hub.now) joins passes.new
        × HasJoined (schema_in hub.now) script (length (joins_of script)) (core_of (schema_in hub.now) (seqs_in hub.now) joins) rests rooms.new) }
    ensures spent { (script : scripts) (rests : List (rest_of plain)) → IsScript (schema_in hub.now) script → lines.now ≡ script.lines
        → HasJoined (schema_in hub.now) script 0 (core_of (schema_in hub.now) (seqs_in hub.now) []) rests rooms.old
        → result ≡ Err Cut.Spent → HavePart hub.now.turn.board.shared.table_id (schema_in hub.now) (seqs_in hub.now) script passes.new
        × IsFull passes.new }
{
    for line in lines {
        if let Command::Join(other, first, second) = &line.command {
            let joint = Joint {
                seq: line.seq,
                other: *other,
                first: *first,
                second: *second,
            };
            let done = join(rt, alloc, hub, passes, rooms, joint);
            if let Err(cut) = done {
                return Err(cut);
            }
        }
    }
    Ok(())
}
