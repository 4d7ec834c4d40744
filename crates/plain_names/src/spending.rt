//! What a line spends of what its sequence holds.

ghost use Rattle.std.specs.Prelude.{◌≡◌};
ghost use Rattle.script_names.specs.Tables.{left_by};
ghost use Rattle.plain_names.specs.steps.Spent.{Spends, handles_gone, pendings_gone, responders_gone};

use crate::handing::is_done;
use crate::named::PlainNames;
use crate::slots::Slots;
use bind_model::{Asked, Closing, Event, PendingId, ResponderId};
use handle_table::Thing;
use script_names::Names;

/// Nothing is held any more under the names whose things go with what was asked. An end that bytes are
/// written from comes back, and so does a token that they are moved at.
fn spend_handles(handles: &mut Slots<Thing>, lists: &Names, asked: &Asked)
    ensures { handles.new.items.items ≡ left_by handles.old.items.items (handles_gone lists.now asked.now) }
{
    match asked {
        Asked::Bind(_, _, _) => handles.clear(lists.one),
        Asked::Close(Closing::Handle(_)) => handles.clear(lists.one),
        Asked::Call(_, _, _) | Asked::Answer(_, _) | Asked::Raw(_, _, _) => {
            handles.clear_all(lists.handles.as_slice());
        }
        _ => {}
    }
}

/// Nothing is held any more under the names whose pendings go with what was asked.
fn spend_pendings(pendings: &mut Slots<PendingId>, lists: &Names, asked: &Asked)
    ensures { pendings.new.items.items ≡ left_by pendings.old.items.items (pendings_gone lists.now asked.now) }
{
    match asked {
        Asked::Attach(_, _) => pendings.clear(lists.one),
        Asked::Close(Closing::Pending(_)) => pendings.clear(lists.one),
        Asked::Call(_, _, _) | Asked::Answer(_, _) => {
            pendings.clear_all(lists.pendings.as_slice());
        }
        _ => {}
    }
}

/// Nothing is held any more under the name whose right to answer what was asked spends.
fn spend_responders(responders: &mut Slots<ResponderId>, lists: &Names, asked: &Asked)
    ensures { responders.new.items.items ≡ left_by responders.old.items.items (responders_gone lists.now asked.now) }
{
    match asked {
        Asked::Answer(_, _) => responders.clear(lists.one),
        Asked::Close(Closing::Responder(_)) => responders.clear(lists.one),
        _ => {}
    }
}

/// Nothing is held any more under the names of what goes with what was asked.
fn spend_all(names: &mut PlainNames, lists: &Names, asked: &Asked)
    ensures stands { names.new.stands ≡ names.old.stands }
    ensures handles { names.new.handles.items.items ≡ left_by names.old.handles.items.items (handles_gone lists.now asked.now) }
    ensures pendings { names.new.pendings.items.items ≡ left_by names.old.pendings.items.items (pendings_gone lists.now asked.now) }
    ensures responders { names.new.responders.items.items ≡ left_by names.old.responders.items.items (responders_gone lists.now asked.now) }
{
    spend_handles(&mut names.handles, lists, asked);
    spend_pendings(&mut names.pendings, lists, asked);
    spend_responders(&mut names.responders, lists, asked);
}

/// Nothing is held any more under the names of what went with what was asked, where that was done.
pub(crate) fn spend(names: &mut PlainNames, lists: &Names, event: &Event)
    ensures { Spends lists.now event.now names.old names.new }
{
    if is_done(&event.told) {
        spend_all(names, lists, &event.asked);
    }
}
