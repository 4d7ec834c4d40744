//! How many rights to answer are with callers, by their names.

ghost use Rattle.std.specs.Prelude.{◌≡◌, ◌+◌, ◌<◌, ◌^◌, ◌==◌, not, true, if◌then◌else◌, OnOk};
ghost use Rattle.bind_model.specs.declared.endpoint.ResponderId.{ResponderId as responder_id};
ghost use Rattle.bind_model.specs.Replies.{same_responder};
ghost use Rattle.bind_model.specs.Responders.{count_of, has_count};

use crate::endpoint::ResponderId;
use crate::responder::{ResponderName, name_of};
use std::alloc::{AllocError, Global};
use std::collections::BTreeMap;
use std::marker::Model;

/// How many responders of each name are with callers. It makes none: who has it says himself who got one.
/// Contracts see a list of names and counts.
#[derive(Drop)]
pub struct ResponderTable {
    counts: BTreeMap<ResponderName, u64>,
}

impl Model for ResponderTable {
    ghost use Rattle.std.specs.Prelude.{ℕ, List};
    ghost use Rattle.bind_model.specs.declared.responder.ResponderName.{ResponderName};

    ghost Value = { List (ResponderName × ℕ) };

    ghost view = { λ table. table.counts.entries };
}

impl ResponderTable {
    /// No responders. Takes no memory.
    pub fn new(alloc: Global) -> ResponderTable
        ensures { (r : responder_id) → count_of result r ≡ 0 }
    {
        ResponderTable {
            counts: BTreeMap::new(alloc),
        }
    }

    /// Whether one of this name is with a caller.
    pub fn is_out(&self, id: ResponderId) -> bool
        ensures { result ≡ not (count_of self.now id == 0) }
    {
        self.counts.get(&name_of(id)).copied().unwrap_or(0) != 0
    }

    /// Whether there is a place for the count of this name.
    fn has_count(&self, id: ResponderId) -> bool
        ensures { result ≡ has_count self.now id }
    {
        self.counts.contains_key(&name_of(id))
    }

    /// Makes a place for the count of this name.
    pub fn reserve(&mut self, id: ResponderId) -> Result<(), AllocError>
        ensures same { (r : responder_id) → count_of self.new r ≡ count_of self.old r }
        ensures there { OnOk result (has_count self.new id ≡ true) }
    {
        if self.has_count(id) {
            return Ok(());
        }
        self.counts.insert(name_of(id), 0)?;
        Ok(())
    }

    /// One of this name more is with a caller; there is a place for its count.
    pub fn add(&mut self, id: ResponderId)
        requires there { has_count self.old id ≡ true }
        requires room { count_of self.old id + 1 < 2 ^ 64 }
        ensures { (r : responder_id) → count_of self.new r ≡ count_of self.old r + (if same_responder id r then 1 else 0) }
    {
        if let Some(count) = self.counts.get_mut(&name_of(id)) {
            *count += 1;
        }
    }

    /// Counts one less of a name of which one is out.
    fn subtract(&mut self, id: ResponderId)
        requires { not (count_of self.old id == 0) ≡ true }
        ensures { (r : responder_id) → count_of self.new r + (if same_responder id r then 1 else 0) ≡ count_of self.old r }
    {
        if let Some(count) = self.counts.get_mut(&name_of(id)) {
            *count -= 1;
        }
    }

    /// Lets the place of a name go of which none is out.
    fn tidy(&mut self, id: ResponderId)
        ensures { (r : responder_id) → count_of self.new r ≡ count_of self.old r }
    {
        if self.is_out(id) {
            return;
        }
        self.counts.remove(&name_of(id));
    }

    /// One that was out isn't any more.
    pub fn remove(&mut self, id: ResponderId)
        requires { not (count_of self.old id == 0) ≡ true }
        ensures { (r : responder_id) → count_of self.new r + (if same_responder id r then 1 else 0) ≡ count_of self.old r }
    {
        self.subtract(id);
        self.tidy(id);
    }
}
