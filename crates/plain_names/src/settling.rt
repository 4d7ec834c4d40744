//! The names of a sequence after an event of a line.

ghost use Rattle.std.specs.Prelude.{◌≡◌, drop, is_some, length, IfOk, OnOk};
ghost use Rattle.call_script.specs.Sound.{AreWithin, sets};
ghost use Rattle.script_names.specs.Asking.{asked_by};
ghost use Rattle.script_names.specs.Held.{held_at};
ghost use Rattle.script_names.specs.Needs.{AreNames};
ghost use Rattle.script_names.specs.Settling.{list_of};
ghost use Rattle.script_names.specs.Tables.{given};
ghost use Rattle.plain_names.specs.Held.{HasNames, named_in};
ghost use Rattle.plain_names.specs.Settled.{settled_by};
ghost use Rattle.plain_names.specs.steps.Spent.{Came};

use crate::handing::{handed, pendings_handed};
use crate::named::PlainNames;
use crate::spending::spend;
use bind_model::{Event, ResponderId, Told};
use call_script::{Line, NameId};
use handle_table::Thing;
use script_names::{Names, Stands};
use std::alloc::{AllocError, Global};

/// Names stand for what came, in order. Where a name stands twice, it stands for what came first.
pub fn stand_for(stands: &mut Stands, names: &[NameId], things: &[Thing])
    ensures { stands.new.things.items ≡ given names.now things.now stands.old.things.items }
{
    let mut left = things.len();
    while left > 0 {
        left -= 1;
        if let Some(name) = names.get(left) {
            stands.set(*name, things[left]);
        }
    }
}

/// The names behind so many.
fn after(names: &[NameId], count: usize) -> &[NameId]
    ensures { result.now ≡ drop count names.now }
{
    match names.get(count..) {
        Some(rest) => rest,
        None => &[],
    }
}

/// What is there, as a list.
fn list_of(alloc: Global, responder: Option<ResponderId>) -> Result<Vec<ResponderId>, AllocError>
    ensures { IfOk result (λ list. list.items ≡ list_of responder) }
{
    match responder {
        Some(id) => Vec::from_slice(alloc, &[id]),
        None => Ok(Vec::new(alloc)),
    }
}

/// Holds what comes with a reply under these names: first its things, then its pendings, and then a right to
/// answer.
fn hold(
    names: &mut PlainNames,
    alloc: Global,
    sets: &[NameId],
    told: &Told,
    responder: Option<ResponderId>,
) -> Result<(), AllocError>
    ensures { OnOk result (Came sets.now told.now (list_of responder) names.old names.new) }
{
    let things = handed(told);
    let pendings = pendings_handed(alloc, told)?;
    let copied = Vec::from_slice(alloc, things)?;
    let rights = list_of(alloc, responder)?;
    let behind = after(sets, things.len());
    let last = after(behind, pendings.len());
    stand_for(&mut names.stands, sets, things);
    names.handles.give(sets, copied);
    names.pendings.give(behind, pendings);
    names.responders.give(last, rights);
    Ok(())
}

/// What names stand for and hold after an event of a line: what it spent is held no longer, where it was
/// done; and what came is held under the names that the line sets, with this right to answer the last.
pub fn settle(
    names: &mut PlainNames,
    alloc: Global,
    lists: &Names,
    line: &Line,
    event: &Event,
    responder: Option<ResponderId>,
) -> Result<(), AllocError>
    requires lists { AreNames (λ n. is_some (held_at names.old.stands.things.items n)) line.now.command lists.now }
    requires asked { event.now.asked ≡ asked_by (named_in names.old) line.now }
    requires have { HasNames (length names.old.stands.things.items) names.old }
    requires within { AreWithin (length names.old.stands.things.items) (sets line.now.command) }
    ensures named { OnOk result (named_in names.new ≡ settled_by line.now.command (list_of responder) event.now (named_in names.old)) }
    ensures have { OnOk result (HasNames (length names.old.stands.things.items) names.new) }
{
    spend(names, lists, event);
    hold(names, alloc, lists.sets.as_slice(), &event.told, responder)
}
