//! The joins of a script.

ghost use Rattle.std.specs.Prelude.{◌≡◌, ◌<◌, ◌≤◌, [], ◌∷◌, length, IfErr, IfOk, IsOkUnless, OnOk};
ghost use Rattle.mj_base.specs.declared.limits.TheConstants.{MAX_FILE_BYTES};
ghost use Rattle.mj_schema.specs.declared.schema.Schema.{Schema as schema_of};
ghost use Rattle.handle_table.specs.declared.thing.Thing.{Thing as thing_of};
ghost use Rattle.bind_model.specs.Plain.{told_of};
ghost use Rattle.bind_model.specs.declared.told.Told.TheVariants.{Made};
ghost use Rattle.call_script.specs.Sound.{IsScript};
ghost use Rattle.call_script.specs.declared.script.Script.{Script as scripts};
ghost use Rattle.script_run.specs.Order.{joins_of};
ghost use Rattle.script_run.specs.Draining.{IsUnspent};
ghost use Rattle.script_run.specs.steps.Cutting.{CutJoin};
ghost use Rattle.script_run.specs.steps.Desks.{IfSpent};
ghost use Rattle.script_run.specs.Draining.{HaveRested};
ghost use Rattle.script_run.specs.steps.Going.{HasJoined};
ghost use Rattle.script_run.specs.steps.Joints.{Gave, HasMade, HasSpaceAt, Joined, Knows, Spared};
ghost use Rattle.script_run.specs.Rooms.{Come, GaveBoth, HasPlacesAt};
ghost use Rattle.script_names.specs.Rooms.{HasPlaces, SameHeld};

use crate::cut::Cut;
use crate::desks::{leave, put_to_rest, wake};
use crate::plain::Plain;
use crate::worker::ask;
use bind_core::Core;
use bind_model::{Command, Reply};
use call_script::{Command as Asked, Line, NameId};
use handle_table::{Handle, Handles, Thing};
use mj_base::SeqId;
use mj_schema::Schema;
use remote_receiver::Rest;
use script_names::{Kept, NoMemory, Rooms};
use std::alloc::Global;

/// A line that joins: who asks, whose the second end is, and the names of both.
#[derive(Clone, Copy)]
pub struct Joint {
    pub seq: SeqId,
    pub other: SeqId,
    pub first: NameId,
    pub second: NameId,
}

/// All sequences know what a name stands for.
fn know(rooms: &mut [Rooms], name: NameId, thing: Thing)
    ensures { Come (Knows name thing) rooms.old rooms.new }
{
    for room in rooms.iter_mut() {
        room.stands.set(name, thing);
    }
}

/// An end comes under a name: all sequences know it, and one of them holds it.
fn give(rooms: &mut [Rooms], seq: SeqId, name: NameId, handle: Handle)
    requires within { seq.0 < length rooms.old }
    requires space { HasSpaceAt 1 seq rooms.old }
    ensures { Come (Gave seq name handle) rooms.old rooms.new }
{
    know(rooms, name, handle.thing());
    rooms[seq.0 as usize].handles.hold(name, handle);
}

/// The two ends of a join come under their names, each with its sequence.
fn give_both(rooms: &mut [Rooms], joint: Joint, handles: Handles)
    requires two { (x : thing_of) × (y : thing_of) × (handles ≡ x ∷ y ∷ []) }
    requires seq { joint.seq.0 < length rooms.old }
    requires other { joint.other.0 < length rooms.old }
    requires space { HasSpaceAt 2 joint.seq rooms.old × HasSpaceAt 2 joint.other rooms.old }
    ensures { (x y : thing_of) → handles ≡ x ∷ y ∷ [] → Come (GaveBoth joint x y) rooms.old rooms.new }
{
    let mut left = handles.into_vec();
    let Some(second) = left.pop() else {
        unreachable!()
    };
    let Some(first) = left.pop() else {
        unreachable!()
    };
    left.destroy_empty();
    give(rooms, joint.other, joint.second, second);
    give(rooms, joint.seq, joint.first, first);
}

/// Room for the two ends of a join.
fn make_room(rooms: &mut [Rooms], joint: Joint) -> Result<(), NoMemory>
    requires seq { joint.seq.0 < length rooms.old }
    requires other { joint.other.0 < length rooms.old }
    ensures same { Come Spared rooms.old rooms.new }
    ensures space { OnOk result (HasSpaceAt 2 joint.seq rooms.new × HasSpaceAt 2 joint.other rooms.new) }
{
    rooms[joint.other.0 as usize].handles.make_room(2)?;
    rooms[joint.seq.0 as usize].handles.make_room(2)
}

/// Holds the two ends of a join. Without memory they are kept, and the run is cut off.
fn hold(rooms: &mut [Rooms], joint: Joint, handles: Handles) -> Result<(), Cut>
    requires two { (x : thing_of) × (y : thing_of) × (handles ≡ x ∷ y ∷ []) }
    requires seq { joint.seq.0 < length rooms.old }
    requires other { joint.other.0 < length rooms.old }
    requires places { HasPlacesAt 1 joint.seq rooms.old }
    ensures come { (x y : thing_of) → handles ≡ x ∷ y ∷ [] → OnOk result (Come (GaveBoth joint x y) rooms.old rooms.new) }
    ensures memory { IsOkUnless result Cut.Memory }
{
    if make_room(rooms, joint).is_err() {
        rooms[joint.seq.0 as usize]
            .kept
            .push_reserved(Kept::Handles(handles));
        return Err(Cut::Memory);
    }
    give_both(rooms, joint, handles);
    Ok(())
}

/// Holds what comes of a join, which is told two ends, in the rooms of its two sequences. Without memory the ends are kept.
pub fn settle(rooms: &mut [Rooms], joint: Joint, reply: Reply) -> Result<(), Cut>
    requires made { (x : thing_of) × (y : thing_of) × (told_of reply ≡ Made (x ∷ y ∷ [])) }
    requires seq { joint.seq.0 < length rooms.old }
    requires other { joint.other.0 < length rooms.old }
    requires places { HasPlacesAt 1 joint.seq rooms.old }
    ensures come { (x y : thing_of) → told_of reply ≡ Made (x ∷ y ∷ []) → OnOk result (Come (GaveBoth joint x y) rooms.old rooms.new) }
    ensures memory { IsOkUnless result Cut.Memory }
{
    match reply {
        Reply::Made(handles) => hold(rooms, joint, handles),
        // A join of sequences that are there is told nothing else.
        _other => unreachable!(),
    }
}

/// Asks for a join.
fn ask_joint(
    core: Core,
    rests: &mut [Rest<Plain>],
    room: &mut Rooms,
    alloc: Global,
    schema: &Schema,
    joint: Joint,
) -> (Core, Result<Reply, Cut>)
    requires schema { core.schema ≡ schema.now }
    requires rested { HaveRested core rests.old }
    requires seq { joint.seq.0 < core.seqs }
    requires other { joint.other.0 < core.seqs }
    requires places { HasPlaces 3 room.old }
    ensures held { SameHeld room.old room.new }
    ensures places { OnOk result.1 (HasPlaces 2 room.new) }
    ensures joined { IfOk result.1 (λ reply. (x : thing_of) × (y : thing_of) × (told_of reply ≡ Made (x ∷ y ∷ [])) × Joined joint x y core result.0 rests.new) }
    ensures cut { IfErr result.1 (λ cut. IfSpent cut (CutJoin joint.seq core result.0)) }
{
    let mut desk = wake(rests, alloc, core, joint.seq);
    match ask(&mut desk, room, alloc, schema, Command::Join(joint.other)) {
        Ok(reply) => (put_to_rest(rests, desk), Ok(reply)),
        Err(cut) => {
            let core = leave(desk);
            // Its events are legal.
            let _history = core.history();
            (core, Err(cut))
        }
    }
}

/// Joins.
fn join(
    core: Core,
    rests: &mut [Rest<Plain>],
    rooms: &mut [Rooms],
    alloc: Global,
    schema: &Schema,
    joint: Joint,
) -> (Core, Result<(), Cut>)
    requires schema { core.schema ≡ schema.now }
    requires rested { HaveRested core rests.old }
    requires seq { joint.seq.0 < core.seqs }
    requires other { joint.other.0 < core.seqs }
    requires rooms { length rooms.old ≡ core.seqs }
    ensures made { OnOk result.1 (HasMade joint core result.0 rests.new rooms.old rooms.new) }
    ensures cut { IfErr result.1 (λ cut. IfSpent cut (CutJoin joint.seq core result.0)) }
{
    let room = &mut rooms[joint.seq.0 as usize];
    if room.make_place().is_err() {
        return (core, Err(Cut::Memory));
    }
    let (core, told) = ask_joint(core, rests, room, alloc, schema, joint);
    match told {
        Ok(reply) => (core, settle(rooms, joint, reply)),
        Err(cut) => (core, Err(cut)),
    }
}

/// Does the joins of a script, in order.
pub fn do_joins(
    core: Core,
    rests: &mut [Rest<Plain>],
    rooms: &mut [Rooms],
    alloc: Global,
    schema: &Schema,
    lines: &[Line],
) -> (Core, Result<(), Cut>)
    requires schema { core.schema ≡ schema.now }
    requires script { (s : schema_of) × (script : scripts) × IsScript s script × (lines.now ≡ script.lines)
        × HasJoined s script 0 core rests.old rooms.old }
    ensures joined { (s : schema_of) (script : scripts) → IsScript s script → lines.now ≡ script.lines → HasJoined s script 0 core rests.old rooms.old
        → OnOk result.1 (HasJoined s script (length (joins_of script)) result.0 rests.new rooms.new) }
    ensures unspent { (s : schema_of) (script : scripts) → IsScript s script → script.bytes ≤ MAX_FILE_BYTES → lines.now ≡ script.lines
        → HasJoined s script 0 core rests.old rooms.old → IfErr result.1 IsUnspent }
{
    let mut core = core;
    for line in lines {
        if let Asked::Join(other, first, second) = &line.command {
            let joint = Joint {
                seq: line.seq,
                other: *other,
                first: *first,
                second: *second,
            };
            let (back, done) = join(core, rests, rooms, alloc, schema, joint);
            core = back;
            if let Err(cut) = done {
                return (core, Err(cut));
            }
        }
    }
    (core, Ok(()))
}
