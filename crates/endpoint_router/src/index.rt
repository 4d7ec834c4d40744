//! The index of endpoints: by the names of endpoints the keys of their slots.

ghost use Rattle.std.specs.Prelude.{ℕ, ◌≡◌, ◌==◌, ◌&&◌, [], Some, cond, OnOk, OnErr};
ghost use Rattle.mj_base.specs.declared.ids.EndId.{EndId as end_id};
ghost use Rattle.handle_table.specs.Things.{same_end};
ghost use Rattle.endpoint_router.specs.Slots.{key_in};

use bind_model::EndpointName;
use mj_base::EndId;
use std::alloc::{AllocError, Global};
use std::collections::BTreeMap;
use std::marker::Model;

/// For each name of an endpoint the key of its slot. Contracts see a list of names and keys.
#[derive(Drop)]
pub(crate) struct Index {
    keys: BTreeMap<EndpointName, usize>,
}

impl Model for Index {
    ghost use Rattle.std.specs.Prelude.{ℕ, List};
    ghost use Rattle.bind_model.specs.declared.names.EndpointName.{EndpointName};

    ghost Value = { List (EndpointName × ℕ) };

    ghost view = { λ index. index.keys.entries };
}

impl Index {
    /// No names. Takes no memory.
    pub(crate) fn new(alloc: Global) -> Index
        ensures { result ≡ [] }
    {
        Index {
            keys: BTreeMap::new(alloc),
        }
    }

    /// The key of the slot of the endpoint of an id at an end; none where there is none.
    pub(crate) fn key(&self, end: EndId, id: u32) -> Option<usize>
        ensures { result ≡ key_in self.now end id }
    {
        let name = EndpointName { end, id };
        self.keys.get(&name).copied()
    }

    /// Adds the key of the slot of the endpoint of an id at an end. Without memory nothing changes.
    pub(crate) fn add(&mut self, end: EndId, id: u32, key: usize) -> Result<(), AllocError>
        ensures ok { OnOk result ((y : end_id) (n : ℕ) → key_in self.new y n ≡ cond (same_end end y && (id == n)) (Some key) (key_in self.old y n)) }
        ensures err { OnErr result (self.new ≡ self.old) }
    {
        let name = EndpointName { end, id };
        self.keys.insert(name, key)?;
        Ok(())
    }
}
