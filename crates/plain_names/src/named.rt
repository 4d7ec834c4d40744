//! The names of a sequence.

ghost use Rattle.std.specs.Prelude.{◌≡◌, ◌++◌, None, OnOk, replicate};
ghost use Rattle.plain_names.specs.Held.{HasNames};

use crate::slots::Slots;
use bind_model::{PendingId, ResponderId};
use handle_table::Thing;
use script_names::{NoMemory, Stands};
use std::alloc::Global;

/// The end or the token that each name of a sequence stands for; and the thing, the pending or the right to
/// answer that the sequence has under it.
#[derive(Drop)]
pub struct PlainNames {
    pub stands: Stands,
    pub handles: Slots<Thing>,
    pub pendings: Slots<PendingId>,
    pub responders: Slots<ResponderId>,
}

impl PlainNames {
    /// No names. Takes no memory.
    pub fn new(alloc: Global) -> PlainNames
        ensures { HasNames 0 result }
    {
        PlainNames {
            stands: Stands::new(alloc),
            handles: Slots::new(alloc),
            pendings: Slots::new(alloc),
            responders: Slots::new(alloc),
        }
    }

    /// Adds so many names that stand for nothing.
    pub fn add_names(&mut self, names: usize) -> Result<(), NoMemory>
        ensures stands { OnOk result (self.new.stands.things.items ≡ self.old.stands.things.items ++ replicate names None) }
        ensures handles { OnOk result (self.new.handles.items.items ≡ self.old.handles.items.items ++ replicate names None) }
        ensures pendings { OnOk result (self.new.pendings.items.items ≡ self.old.pendings.items.items ++ replicate names None) }
        ensures responders { OnOk result (self.new.responders.items.items ≡ self.old.responders.items.items ++ replicate names None) }
    {
        self.stands.add_names(names)?;
        self.handles.add_names(names)?;
        self.pendings.add_names(names)?;
        self.responders.add_names(names)
    }
}
