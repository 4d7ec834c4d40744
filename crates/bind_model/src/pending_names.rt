//! Which endpoints callers have the right to bind or to send, by their names.

ghost use Rattle.std.specs.Prelude.{◌≡◌, ◌||◌, ◌&&◌, not, true, false, OnOk};
ghost use Rattle.bind_model.specs.declared.endpoint.PendingId.{PendingId as pending_id};
ghost use Rattle.bind_model.specs.Replies.{same_pending};
ghost use Rattle.bind_model.specs.Pendings.{has_place, is_out};

use crate::endpoint::PendingId;
use crate::names::EndpointName;
use std::alloc::{AllocError, Global};
use std::collections::BTreeMap;
use std::marker::Model;

/// The names of the pendings that are with callers; one that isn't may have a place. It makes none: who has
/// it says himself who got one. Contracts see a list of names.
#[derive(Drop)]
pub struct PendingNames {
    names: BTreeMap<EndpointName, bool>,
}

impl Model for PendingNames {
    ghost use Rattle.std.specs.Prelude.{Bool, List};
    ghost use Rattle.bind_model.specs.declared.names.EndpointName.{EndpointName};

    ghost Value = { List (EndpointName × Bool) };

    ghost view = { λ pending. pending.names.entries };
}

impl PendingNames {
    /// No pendings. Takes no memory.
    pub fn new(alloc: Global) -> PendingNames
        ensures { (p : pending_id) → is_out result p ≡ false }
    {
        PendingNames {
            names: BTreeMap::new(alloc),
        }
    }

    /// Whether the one of this name is with a caller.
    pub fn is_out(&self, id: PendingId) -> bool
        ensures { result ≡ is_out self.now id }
    {
        let name = EndpointName {
            end: id.end,
            id: id.id,
        };
        self.names.get(&name).copied().unwrap_or(false)
    }

    /// Makes a place for this name. Without memory nothing changes.
    pub fn reserve(&mut self, id: PendingId) -> Result<(), AllocError>
        ensures same { (p : pending_id) → is_out self.new p ≡ is_out self.old p }
        ensures there { OnOk result (has_place self.new id ≡ true) }
        ensures keeps { (p : pending_id) → has_place self.old p ≡ true → has_place self.new p ≡ true }
    {
        let name = EndpointName {
            end: id.end,
            id: id.id,
        };
        self.names.entry(name)?.or_insert(false);
        Ok(())
    }

    /// The one of this name, for which there is a place, is with a caller.
    pub fn add(&mut self, id: PendingId)
        requires { has_place self.old id ≡ true }
        ensures outs { (p : pending_id) → is_out self.new p ≡ (same_pending id p || is_out self.old p) }
        ensures keeps { (p : pending_id) → has_place self.old p ≡ true → has_place self.new p ≡ true }
    {
        let name = EndpointName {
            end: id.end,
            id: id.id,
        };
        if let Some(out) = self.names.get_mut(&name) {
            *out = true;
        }
    }

    /// The one of this name is with its caller no longer.
    pub fn remove(&mut self, id: PendingId)
        ensures { (p : pending_id) → is_out self.new p ≡ (is_out self.old p && not (same_pending id p)) }
    {
        let name = EndpointName {
            end: id.end,
            id: id.id,
        };
        self.names.remove(&name);
    }
}
