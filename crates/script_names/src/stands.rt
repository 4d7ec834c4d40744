//! What the names of a sequence stand for.

ghost use Rattle.std.specs.Prelude.{◌≡◌, ◌++◌, [], None, Some, OnOk, is_some, replicate};
ghost use Rattle.script_names.specs.Asking.{as_end};
ghost use Rattle.script_names.specs.Held.{held_at};
ghost use Rattle.script_names.specs.Tables.{filled, given};

use crate::no_memory::NoMemory;
use call_script::NameId;
use handle_table::{Handle, Thing};
use mj_base::EndId;
use std::alloc::Global;

/// The end or the token that each name stands for, by the numbers of the names. A name stands for the same
/// wherever that is held.
#[derive(Drop)]
pub struct Stands {
    pub things: Vec<Option<Thing>>,
}

impl Stands {
    /// No names. Takes no memory.
    pub fn new(alloc: Global) -> Stands
        ensures { result.things.items ≡ [] }
    {
        Stands {
            things: Vec::new(alloc),
        }
    }

    /// Adds so many names that stand for nothing.
    pub fn add_names(&mut self, names: usize) -> Result<(), NoMemory>
        ensures { OnOk result (self.new.things.items ≡ self.old.things.items ++ replicate names None) }
    {
        if self.things.reserve(names).is_err() {
            return Err(NoMemory);
        }
        for _ in 0..names {
            self.things.push_reserved(None);
        }
        Ok(())
    }

    /// Whether a name stands for an end or a token.
    pub fn is_thing(&self, name: NameId) -> bool
        ensures { result ≡ is_some (held_at self.now.things.items name) }
    {
        match self.things.get(name.0) {
            Some(thing) => thing.is_some(),
            None => false,
        }
    }

    /// The end that a name stands for.
    pub fn end(&self, name: NameId) -> Option<EndId>
        ensures { result ≡ as_end (held_at self.now.things.items name) }
    {
        match *self.things.get(name.0)? {
            Some(Thing::End(end)) => Some(end),
            _ => None,
        }
    }

    /// A name stands for this from now on.
    pub fn set(&mut self, name: NameId, thing: Thing)
        ensures { self.new.things.items ≡ filled self.old.things.items name thing }
    {
        if name.0 < self.things.len() {
            self.things[name.0] = Some(thing);
        }
    }

    /// Names stand for what came, in order. Where a name stands twice, it stands for what came first.
    pub fn set_all(&mut self, names: &[NameId], handles: &[Handle])
        ensures { self.new.things.items ≡ given names.now handles.now self.old.things.items }
    {
        let mut left = handles.len();
        while left > 0 {
            left -= 1;
            if let Some(name) = names.get(left) {
                self.set(*name, handles[left].thing());
            }
        }
    }
}
