//! What a sequence holds of one kind, handles, pendings or responders: under names, and without.

ghost use Rattle.std.specs.Prelude.{◌≡◌, ◌+◌, ◌<◌, ◌≤◌, ◌++◌, [], ◌∷◌, length, None, Some, is_some, replicate};
ghost use Rattle.std.specs.Prelude.{IfErr, IfNone, IfOk, IfSome, OnErr, OnOk, vec_len, vec_capacity};
ghost use Rattle.std.specs.Option.{option_map};
ghost use Rattle.script_names.specs.Held.{held_at};
ghost use Rattle.script_names.specs.Tables.{emptied, filled, filled_one, given, taken_from, left_where};

use crate::no_memory::NoMemory;
use bind_model::{Pending, Responder};
use call_script::NameId;
use handle_table::{Ended, Handle};
use std::alloc::Global;
use std::mem;

/// What can be let go once all is over.
pub trait Retire {
    /// Lets it go, once all is over.
    fn retire(self, over: &Ended);
}

impl Retire for Handle {
    fn retire(self, over: &Ended) {
        Handle::retire(self, over);
    }
}

impl Retire for Pending {
    fn retire(self, over: &Ended) {
        Pending::retire(self, over);
    }
}

impl Retire for Responder {
    fn retire(self, over: &Ended) {
        Responder::retire(self, over);
    }
}

/// What is held under names, by the numbers of the names, and the others.
pub struct Held<T> {
    pub named: Vec<Option<T>>,
    pub others: Vec<T>,
}

impl<T> Held<T> {
    /// Nothing, and no names. Takes no memory.
    pub fn new(alloc: Global) -> Held<T>
        ensures { result.named.items ≡ [] }
    {
        Held {
            named: Vec::new(alloc),
            others: Vec::new(alloc),
        }
    }

    /// Adds so many names.
    pub fn add_names(&mut self, names: usize) -> Result<(), NoMemory>
        ensures { OnOk result (self.new.named.items ≡ self.old.named.items ++ replicate names None) }
    {
        if self.named.reserve(names).is_err() {
            return Err(NoMemory);
        }
        for _ in 0..names {
            self.named.push_reserved(None);
        }
        Ok(())
    }

    /// Whether something is held under a name.
    pub fn is_held(&self, name: NameId) -> bool
        ensures { result ≡ is_some (held_at self.now.named.items name) }
    {
        match self.named.get(name.0) {
            Some(held) => held.is_some(),
            None => false,
        }
    }

    /// Takes what is held under a name.
    pub fn take(&mut self, name: NameId) -> Option<T>
        ensures before { result ≡ held_at self.old.named.items name }
        ensures after { self.new.named.items ≡ emptied self.old.named.items name }
        ensures others { self.new.others ≡ self.old.others }
    {
        if name.0 >= self.named.len() {
            return None;
        }
        mem::replace(&mut self.named[name.0], None)
    }

    /// Makes room for so many more without names.
    pub fn make_room(&mut self, count: usize) -> Result<(), NoMemory>
        ensures same { self.new.named ≡ self.old.named }
        ensures others { self.new.others.items ≡ self.old.others.items }
        ensures room { OnOk result (count + vec_len self.new.others ≤ vec_capacity self.new.others) }
    {
        match self.others.reserve(count) {
            Ok(()) => Ok(()),
            Err(_) => Err(NoMemory),
        }
    }

    /// Holds something under a name. What was held there is kept without a name.
    pub fn hold(&mut self, name: NameId, one: T)
        requires { vec_len self.old.others < vec_capacity self.old.others }
        ensures named { self.new.named.items ≡ filled self.old.named.items name one }
        ensures kept { vec_len self.new.others ≤ vec_len self.old.others + 1 }
        ensures room { vec_capacity self.new.others ≡ vec_capacity self.old.others }
    {
        if name.0 >= self.named.len() {
            self.others.push_reserved(one);
            return;
        }
        match mem::replace(&mut self.named[name.0], Some(one)) {
            Some(before) => self.others.push_reserved(before),
            None => {}
        }
    }

    /// Holds something under a name; without one it is kept without a name, the last of all.
    pub fn give_one(&mut self, name: Option<NameId>, one: T)
        requires { vec_len self.old.others < vec_capacity self.old.others }
        ensures named { self.new.named.items ≡ filled_one name one self.old.named.items }
        ensures last { IfNone name (self.new.others.items ≡ self.old.others.items ++ one ∷ []) }
    {
        match name {
            Some(name) => self.hold(name, one),
            None => self.others.push_reserved(one),
        }
    }

    /// Holds things under names, in order; those left over are kept without a name. Where a name stands
    /// twice, its first thing stays under it.
    pub fn give(&mut self, names: &[NameId], things: Vec<T>)
        requires { length things.items + vec_len self.old.others ≤ vec_capacity self.old.others }
        ensures named { self.new.named.items ≡ given names.now things.items self.old.named.items }
        ensures kept { vec_len self.new.others ≤ vec_len self.old.others + length things.items }
        ensures room { vec_capacity self.new.others ≡ vec_capacity self.old.others }
    {
        let mut left = things;
        while let Some(one) = left.pop() {
            match names.get(left.len()) {
                Some(name) => self.hold(*name, one),
                None => self.others.push_reserved(one),
            }
        }
        left.destroy_empty();
    }

    /// As `give`, where there is memory to keep the things; else they come back, and nothing changes.
    pub fn give_new(&mut self, names: &[NameId], things: Vec<T>) -> Result<(), Vec<T>>
        ensures ok { OnOk result (self.new.named.items ≡ given names.now things.items self.old.named.items) }
        ensures back { IfErr result (λ rest. rest ≡ things) }
        ensures err { OnErr result ((self.new.named ≡ self.old.named) × (self.new.others.items ≡ self.old.others.items)) }
    {
        if self.make_room(things.len()).is_err() {
            return Err(things);
        }
        self.give(names, things);
        Ok(())
    }

    /// Takes what is held under these names, in order; none, and nothing is taken, where one of them holds
    /// nothing or stands twice. Without memory nothing changes.
    pub fn take_all(&mut self, alloc: Global, names: &[NameId]) -> Result<Option<Vec<T>>, NoMemory>
        ensures things { IfOk result (λ taken. option_map (λ list. list.items) taken ≡ taken_from self.old.named.items names.now) }
        ensures named { IfOk result (λ taken. self.new.named.items ≡ left_where (taken_from self.old.named.items names.now) self.old.named.items names.now) }
        ensures room { IfOk result (λ taken. IfSome taken (λ list. length list.items + vec_len self.new.others ≤ vec_capacity self.new.others)) }
        ensures err { OnErr result ((self.new.named ≡ self.old.named) × (self.new.others.items ≡ self.old.others.items)) }
    {
        self.make_room(names.len())?;
        let Ok(mut taken) = Vec::with_capacity(alloc, names.len()) else {
            return Err(NoMemory);
        };
        for name in names {
            match self.take(*name) {
                Some(one) => taken.push_reserved(one),
                None => {
                    self.give(names, taken);
                    return Ok(None);
                }
            }
        }
        Ok(Some(taken))
    }
}

impl<T: Retire> Held<T> {
    /// Lets all go, once all is over.
    pub fn retire(self, over: &Ended) {
        let Held {
            mut named,
            mut others,
        } = self;
        while let Some(held) = named.pop() {
            if let Some(one) = held {
                one.retire(over);
            }
        }
        named.destroy_empty();
        while let Some(one) = others.pop() {
            one.retire(over);
        }
        others.destroy_empty();
    }
}
