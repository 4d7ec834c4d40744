//! The joins of a script.

ghost use Rattle.std.specs.Prelude.{◌≡◌, ◌<◌, ◌≤◌, ◌∷◌, [], length, IfNone, IfSome, OnOk};
ghost use Rattle.mj_base.specs.declared.limits.TheConstants.{MAX_EVENTS, MAX_FILE_BYTES};
ghost use Rattle.bind_model.specs.declared.told.Told.TheVariants.{Made};
ghost use Rattle.call_script.specs.Sound.{IsScript};
ghost use Rattle.handle_table.specs.declared.thing.Thing.{Thing as thing_of};
ghost use Rattle.core_state.specs.Agreement.{schema_of};
ghost use Rattle.event_steps.specs.Standing.{Stands};
ghost use Rattle.event_tables.specs.AsCore.{state_of};
ghost use Rattle.script_names.specs.Tables.{filled};
ghost use Rattle.script_run.specs.Order.{joins_of};
ghost use Rattle.script_run.specs.Rooms.{filled_if};
ghost use Rattle.event_follow.specs.steps.Joining.{Come, GaveBoth, HasJoined, HasMade};

use crate::places::Place;
use crate::settling::came;
use bind_model::{Event, Told};
use call_script::{Command as Asked, NameId, Script};
use event_steps::Machine;
use handle_table::Thing;
use plain_names::{PlainCommand, PlainNames, Slots};
use script_run::Joint;
use std::alloc::{AllocError, Global};

/// An end is held under a name, where it is for one's own sequence.
fn hold_own(handles: &mut Slots<Thing>, own: bool, name: NameId, thing: Thing)
    ensures { handles.new.items.items ≡ filled_if own handles.old.items.items name thing }
{
    if !own {
        return;
    }
    handles.set(name, thing);
}

/// An end comes under a name, and is held there where it is for one's own sequence.
fn give(names: &mut PlainNames, own: bool, name: NameId, thing: Thing)
    ensures stands { names.new.stands.things.items ≡ filled names.old.stands.things.items name thing }
    ensures handles { names.new.handles.items.items ≡ filled_if own names.old.handles.items.items name thing }
    ensures pendings { names.new.pendings ≡ names.old.pendings }
    ensures responders { names.new.responders ≡ names.old.responders }
{
    names.stands.set(name, thing);
    hold_own(&mut names.handles, own, name, thing);
}

/// Two ends come under the names of a join: the sequence of this number knows both, and holds those that are
/// for it.
fn give_both(names: &mut PlainNames, number: u32, joint: Joint, first: Thing, second: Thing)
    ensures { GaveBoth joint first second number names.old names.new }
{
    give(names, joint.other.0 == number, joint.second, second);
    give(names, joint.seq.0 == number, joint.first, first);
}

/// Two ends come under the names of a join: all sequences know both, and each holds those that are for it.
fn give_all(places: &mut [Place<'_>], joint: Joint, first: Thing, second: Thing)
    requires few { length places.old < 4294967296 }
    ensures { Come joint first second places.old places.new }
{
    let mut number = 0;
    for place in places.iter_mut() {
        give_both(&mut place.names, number, joint, first, second);
        number += 1;
    }
}

/// The two things of a list of two.
fn both(things: &[Thing]) -> Option<(Thing, Thing)>
    ensures some { IfSome result (λ two. things.now ≡ two.0 ∷ two.1 ∷ []) }
    ensures none { IfNone result ((x y : thing_of) → things.now ≡ x ∷ y ∷ [] → ⊥) }
{
    match things {
        [first, second] => Some((*first, *second)),
        _ => None,
    }
}

/// The two ends that an event made.
fn ends_made(event: &Event) -> Option<(Thing, Thing)>
    ensures some { IfSome result (λ two. event.now.told ≡ Made (two.0 ∷ two.1 ∷ [])) }
    ensures none { IfNone result ((x y : thing_of) → event.now.told ≡ Made (x ∷ y ∷ []) → ⊥) }
{
    match &event.told {
        Told::Made(things) => both(things.as_slice()),
        _ => None,
    }
}

/// The two ends that an event made come under the names of a join.
fn settle_joint(places: &mut [Place<'_>], joint: Joint, event: &Event)
    requires few { length places.old < 4294967296 }
    requires made { (x : thing_of) × (y : thing_of) × (event.now.told ≡ Made (x ∷ y ∷ [])) }
    ensures { (x y : thing_of) → event.now.told ≡ Made (x ∷ y ∷ []) → Come joint x y places.old places.new }
{
    match ends_made(event) {
        Some((first, second)) => give_all(places, joint, first, second),
        // It made two.
        None => unreachable!(),
    }
}

/// Joins.
fn join(
    machine: &mut Machine,
    places: &mut [Place<'_>],
    alloc: Global,
    joint: Joint,
) -> Result<(), AllocError>
    requires stands { Stands machine.old }
    requires few { length machine.old.tables.log.events < MAX_EVENTS }
    requires seq { joint.seq.0 < machine.old.tables.seqs }
    requires other { joint.other.0 < machine.old.tables.seqs }
    requires places { length places.old < 4294967296 }
    ensures { OnOk result (HasMade joint machine.old machine.new places.old places.new) }
{
    machine.step(alloc, joint.seq, PlainCommand::Join(joint.other))?;
    settle_joint(places, joint, came(machine));
    Ok(())
}

/// Does the joins of a script, in order.
pub(crate) fn do_joins(
    machine: &mut Machine,
    places: &mut [Place<'_>],
    alloc: Global,
    script: &Script,
) -> Result<(), AllocError>
    requires script { IsScript (schema_of (state_of machine.old.tables)) script.now }
    requires short { script.now.bytes ≤ MAX_FILE_BYTES }
    requires first { HasJoined (schema_of (state_of machine.old.tables)) script.now 0 machine.old places.old }
    ensures { OnOk result (HasJoined (schema_of (state_of machine.old.tables)) script.now (length (joins_of script.now)) machine.new places.new) }
{
    let lines = script.lines.as_slice();
    for line in lines {
        if let Asked::Join(other, first, second) = &line.command {
            let joint = Joint {
                seq: line.seq,
                other: *other,
                first: *first,
                second: *second,
            };
            join(machine, places, alloc, joint)?;
        }
    }
    Ok(())
}
