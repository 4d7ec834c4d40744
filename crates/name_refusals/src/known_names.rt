//! Full names that are known.

ghost use Rattle.std.specs.Prelude.{◌≡◌};
ghost use Rattle.name_refusals.specs.steps.Sets.{is_name};

use indexmap::IndexMap;
use mj_base::{NameParts, SharedText};
use name_tree::NameTree;
use std::alloc::{AllocError, Global};

/// The full names of definitions that are known: a tree of them by their parts, so that what they begin with
/// is kept once, and the nodes of those that are known. The module of the last of them is at hand, so that
/// the definitions of a file don't each walk through the name of their module.
#[derive(Drop)]
pub struct KnownNames {
    tree: NameTree,
    nodes: IndexMap<u32, ()>,
    around: Option<SharedText>,
    at: u32,
}

/// Whether there is a name, and it is this one.
fn is_name(known: &Option<SharedText>, name: &str) -> bool
    ensures { result ≡ is_name known.now name.now }
{
    match known {
        Some(known) => known.as_str() == name,
        None => false,
    }
}

impl KnownNames {
    ghost use Rattle.std.specs.Prelude.{◌≡◌, ◌<◌, [], IfOk, OnOk, Some, is_some, nat_eq};
    ghost use Rattle.indexmap.specs.IndexMap.{get};
    ghost use Rattle.name_tree.specs.Walks.{walk};
    ghost use Rattle.name_tree.specs.Trees.{child, count};
    ghost use Rattle.mj_base.specs.Names.{within, named_in, full_name};
    ghost use Rattle.name_refusals.specs.Known.{no_names, with_name};
    ghost use Rattle.name_refusals.specs.steps.Trees.{knows, AreKnown, StandsAt, EntersInto};

    /// No names.
    pub fn new(alloc: Global) -> KnownNames
        ensures known { AreKnown result }
        ensures none { knows result ≡ no_names }
    {
        KnownNames {
            tree: NameTree::new(alloc),
            nodes: IndexMap::new(alloc),
            around: None,
            at: 0,
        }
    }

    /// Enters a name below a node, and gives the node of both.
    fn enter(&mut self, alloc: Global, node: u32, name: &str) -> Result<u32, AllocError>
        requires known { AreKnown self.old }
        requires there { node < count self.old.tree }
        ensures entered { OnOk result (EntersInto self.old self.new) }
        ensures is { IfOk result (λ made. walk (child self.new.tree) node [] name.now ≡ Some made) }
    {
        let made = self.tree.enter(alloc, node, name)?;
        Ok(made)
    }

    /// Enters the name of a module, and keeps it at hand.
    fn enter_module(&mut self, alloc: Global, name: &SharedText) -> Result<u32, AllocError>
        requires { AreKnown self.old }
        ensures entered { OnOk result (EntersInto self.old self.new) }
        ensures is { IfOk result (λ node. walk (child self.new.tree) 0 [] name.now ≡ Some node) }
    {
        let kept = name.share()?;
        let node = self.enter(alloc, 0, name.as_str())?;
        self.around = Some(kept);
        self.at = node;
        Ok(node)
    }

    /// The node of a module's name, which is entered where it isn't at hand.
    fn node_of_module(&mut self, alloc: Global, name: &SharedText) -> Result<u32, AllocError>
        requires { AreKnown self.old }
        ensures entered { OnOk result (EntersInto self.old self.new) }
        ensures is { IfOk result (λ node. walk (child self.new.tree) 0 [] name.now ≡ Some node) }
    {
        if is_name(&self.around, name.as_str()) {
            return Ok(self.at);
        }
        self.enter_module(alloc, name)
    }

    /// The node below which the names in a module stand: the root where there is no module.
    fn module_node(&mut self, alloc: Global, name: &Option<SharedText>) -> Result<u32, AllocError>
        requires { AreKnown self.old }
        ensures entered { OnOk result (EntersInto self.old self.new) }
        ensures is { IfOk result (λ node. StandsAt self.new.tree name.now node) }
    {
        match name {
            Some(name) => self.node_of_module(alloc, name),
            None => Ok(0),
        }
    }

    /// Enters a name within another below a node, and gives the node of all.
    fn enter_within(
        &mut self,
        alloc: Global,
        node: u32,
        outer: &str,
        name: &str,
    ) -> Result<u32, AllocError>
        requires known { AreKnown self.old }
        requires there { node < count self.old.tree }
        ensures entered { OnOk result (EntersInto self.old self.new) }
        ensures is { IfOk result (λ made. walk (child self.new.tree) node [] (within outer.now name.now) ≡ Some made) }
    {
        let inner = self.enter(alloc, node, outer)?;
        let made = self.enter(alloc, inner, name)?;
        Ok(made)
    }

    /// Enters a name below a node, within another where there is one, and gives the node of all.
    fn enter_below(
        &mut self,
        alloc: Global,
        node: u32,
        outer: &Option<SharedText>,
        name: &str,
    ) -> Result<u32, AllocError>
        requires known { AreKnown self.old }
        requires there { node < count self.old.tree }
        ensures entered { OnOk result (EntersInto self.old self.new) }
        ensures is { IfOk result (λ made. walk (child self.new.tree) node [] (named_in outer.now name.now) ≡ Some made) }
    {
        match outer {
            Some(outer) => self.enter_within(alloc, node, outer.as_str(), name),
            None => self.enter(alloc, node, name),
        }
    }

    /// Enters a full name, and gives its node.
    fn enter_full(&mut self, alloc: Global, name: NameParts<'_>) -> Result<u32, AllocError>
        requires { AreKnown self.old }
        ensures entered { OnOk result (EntersInto self.old self.new) }
        ensures is { IfOk result (λ node.
            walk (child self.new.tree) 0 [] (full_name name.entry.module_name.now name.entry.outer.now name.entry.name.now) ≡ Some node) }
    {
        let around = self.module_node(alloc, name.module_name)?;
        let made = self.enter_below(alloc, around, name.outer, name.name)?;
        Ok(made)
    }

    /// Whether the name of this node is known.
    fn has_node(&self, node: u32) -> bool
        ensures { result ≡ is_some (get nat_eq self.now.nodes node) }
    {
        self.nodes.get(&node).is_some()
    }

    /// Adds a full name, and says whether it was known already.
    pub fn add(&mut self, alloc: Global, name: NameParts<'_>) -> Result<bool, AllocError>
        requires { AreKnown self.old }
        ensures known { OnOk result (AreKnown self.new) }
        ensures was { IfOk result (λ was. was ≡ knows self.old (full_name name.entry.module_name.now name.entry.outer.now name.entry.name.now)) }
        ensures added { OnOk result
            (knows self.new ≡ with_name (knows self.old) (full_name name.entry.module_name.now name.entry.outer.now name.entry.name.now)) }
    {
        let node = self.enter_full(alloc, name)?;
        let was = self.has_node(node);
        self.nodes.insert(node, ())?;
        Ok(was)
    }
}
