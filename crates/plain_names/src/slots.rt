//! What is held under names, by the numbers of the names.

ghost use Rattle.std.specs.Prelude.{◌≡◌, ◌++◌, [], None, IfOk, OnOk, replicate};
ghost use Rattle.std.specs.Option.{option_map};
ghost use Rattle.script_names.specs.Asking.{all_held};
ghost use Rattle.script_names.specs.Held.{held_at};
ghost use Rattle.script_names.specs.Settling.{listed};
ghost use Rattle.script_names.specs.Tables.{emptied, filled, given, left_by, left_where, taken_from};

use call_script::NameId;
use script_names::NoMemory;
use std::alloc::{AllocError, Global};
use std::mem;

/// What is held under each name, at the number of the name.
#[derive(Drop)]
pub struct Slots<T> {
    pub items: Vec<Option<T>>,
}

impl<T> Slots<T> {
    /// No names. Takes no memory.
    pub fn new(alloc: Global) -> Slots<T>
        ensures { result.items.items ≡ [] }
    {
        Slots {
            items: Vec::new(alloc),
        }
    }

    /// Adds so many names under which nothing is held.
    pub fn add_names(&mut self, names: usize) -> Result<(), NoMemory>
        ensures { OnOk result (self.new.items.items ≡ self.old.items.items ++ replicate names None) }
    {
        if self.items.reserve(names).is_err() {
            return Err(NoMemory);
        }
        for _ in 0..names {
            self.items.push_reserved(None);
        }
        Ok(())
    }

    /// Takes what is held under a name.
    fn take(&mut self, name: NameId) -> Option<T>
        ensures before { result ≡ held_at self.old.items.items name }
        ensures after { self.new.items.items ≡ emptied self.old.items.items name }
    {
        if name.0 >= self.items.len() {
            return None;
        }
        mem::replace(&mut self.items[name.0], None)
    }
}

impl<T: Copy> Slots<T> {
    /// What is held under a name.
    pub fn get(&self, name: NameId) -> Option<T>
        ensures { result ≡ held_at self.now.items.items name }
    {
        match self.items.get(name.0) {
            Some(held) => *held,
            None => None,
        }
    }

    /// Holds something under a name, in place of what was held there.
    pub fn set(&mut self, name: NameId, one: T)
        ensures { self.new.items.items ≡ filled self.old.items.items name one }
    {
        if name.0 < self.items.len() {
            self.items[name.0] = Some(one);
        }
    }

    /// Holds things under names, in order; those left over have none. Where a name stands twice, its first
    /// thing stays under it.
    pub fn give(&mut self, names: &[NameId], things: Vec<T>)
        ensures { self.new.items.items ≡ given names.now things.items self.old.items.items }
    {
        let mut left = things;
        while let Some(one) = left.pop() {
            match names.get(left.len()) {
                Some(name) => self.set(*name, one),
                None => {}
            }
        }
    }

    /// Takes what is held under these names, in order; none, and nothing is taken, where one of them holds
    /// nothing or stands twice.
    fn take_all(&mut self, alloc: Global, names: &[NameId]) -> Result<Option<Vec<T>>, AllocError>
        ensures things { IfOk result (λ taken. option_map (λ list. list.items) taken ≡ taken_from self.old.items.items names.now) }
        ensures left { IfOk result (λ taken. self.new.items.items ≡ left_where (taken_from self.old.items.items names.now) self.old.items.items names.now) }
    {
        let mut taken = Vec::with_capacity(alloc, names.len())?;
        for name in names {
            match self.take(*name) {
                Some(one) => taken.push_reserved(one),
                None => {
                    self.give(names, taken);
                    return Ok(None);
                }
            }
        }
        Ok(Some(taken))
    }

    /// What is held under these names, in order; none where one of them holds nothing or stands twice. It
    /// is held there still.
    pub fn all(&mut self, alloc: Global, names: &[NameId]) -> Result<Option<Vec<T>>, AllocError>
        ensures all { IfOk result (λ all. option_map (λ list. list.items) all ≡ all_held (held_at self.old.items.items) names.now) }
        ensures same { OnOk result (self.new.items.items ≡ self.old.items.items) }
    {
        let Some(taken) = self.take_all(alloc, names)? else {
            return Ok(None);
        };
        let back = Vec::from_slice(alloc, taken.as_slice())?;
        self.give(names, back);
        Ok(Some(taken))
    }

    /// Nothing is held under this name any more, where there is one.
    pub fn clear(&mut self, name: Option<NameId>)
        ensures { self.new.items.items ≡ left_by self.old.items.items (listed name) }
    {
        if let Some(name) = name {
            let _before = self.take(name);
        }
    }

    /// Nothing is held under these names any more.
    pub fn clear_all(&mut self, names: &[NameId])
        ensures { self.new.items.items ≡ left_by self.old.items.items names.now }
    {
        for name in names {
            let _before = self.take(*name);
        }
    }
}
