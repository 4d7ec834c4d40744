//! What has each full name, by its node in a tree of names.

ghost use Rattle.std.specs.Prelude.{◌≡◌, OnOk, nat_eq};
ghost use Rattle.indexmap.specs.IndexMap.{get};
ghost use Rattle.module_resolver.specs.steps.Held.{Adds};

use crate::entry::Entry;
use crate::lengths::{lesser_of, mark};
use crate::owners::Owners;
use crate::seen::Seen;
use crate::target::Target;
use indexmap::IndexMap;
use name_tree::NameTree;
use std::alloc::{AllocError, Global};

/// What has each full name in any file: the names in a tree, what has the name of a node, and marks of
/// how many dots the names that anything has have.
#[derive(Drop)]
pub struct NameIndex {
    tree: NameTree,
    owners: IndexMap<u32, Owners>,
    dots: Vec<bool>,
}

/// Adds a target to what a node has, behind all that it has already.
fn add_owner(
    alloc: Global,
    owners: &mut IndexMap<u32, Owners>,
    node: u32,
    target: Target,
) -> Result<(), AllocError>
    ensures { OnOk result (Adds (get nat_eq owners.old) (get nat_eq owners.new) node target) }
{
    if let Some(known) = owners.get_mut(&node) {
        return known.add(target);
    }
    owners.insert(node, Owners::new(alloc, target))?;
    Ok(())
}

impl NameIndex {
    ghost use Rattle.std.specs.Prelude.{◌≡◌, ◌<◌, ℕ, List, Some, None, IfOk, OnOk};
    ghost use Rattle.import_order.specs.Imports.{has};
    ghost use Rattle.name_tree.specs.Trees.{count};
    ghost use Rattle.module_resolver.specs.Seats.{HaveDots, node_of, held};
    ghost use Rattle.module_resolver.specs.steps.Held.{owner_below, IsSound, IsMeasured, Entered, NotedAt};

    /// An index of no names.
    pub(crate) fn new(alloc: Global) -> NameIndex
        ensures sound { IsSound result }
        ensures none { (name : List ℕ) → held result name ≡ None }
    {
        NameIndex {
            tree: NameTree::new(alloc),
            owners: IndexMap::new(alloc),
            dots: Vec::new(alloc),
        }
    }

    /// Enters a name below a node, and gives the node of both.
    pub(crate) fn enter(&mut self, alloc: Global, node: u32, name: &str) -> Result<u32, AllocError>
        requires sound { IsSound self.old }
        requires there { node < count self.old.tree }
        ensures entered { OnOk result (Entered self.old self.new) }
        ensures is { IfOk result (λ made. node_of self.new node name.now ≡ Some made) }
    {
        let made = self.tree.enter(alloc, node, name)?;
        Ok(made)
    }

    /// Notes what has the name that stands here, behind all that has it already.
    pub(crate) fn note(
        &mut self,
        alloc: Global,
        entry: Entry,
        target: Target,
    ) -> Result<(), AllocError>
        requires sound { IsSound self.old }
        requires there { entry.node < count self.old.tree }
        requires measured { IsMeasured self.old entry }
        ensures { OnOk result (NotedAt self.old self.new entry.node target) }
    {
        mark(&mut self.dots, entry.dots)?;
        add_owner(alloc, &mut self.owners, entry.node, target)
    }

    /// For each number of dots the greatest, not above it, that a full name has that anything has.
    pub(crate) fn dots(&self, alloc: Global) -> Result<Vec<usize>, AllocError>
        requires { IsSound self.now }
        ensures { IfOk result (λ dots. HaveDots dots.items (held self.now)) }
    {
        lesser_of(alloc, self.dots.as_slice())
    }

    /// The node of a name below a node; none where it was never entered.
    pub(crate) fn below(&self, node: u32, name: &str) -> Option<u32>
        ensures { result ≡ node_of self.now node name.now }
    {
        self.tree.below(node, name)
    }

    /// What has a name below a node in the files that are seen: a definition, or else an enumerator.
    pub(crate) fn meant(&self, seen: &Seen, node: u32, name: &str) -> Option<Target>
        ensures { result ≡ owner_below self.now (has seen.now) node name.now }
    {
        let found = self.tree.below(node, name)?;
        self.owners.get(&found)?.first_seen(seen)
    }
}
