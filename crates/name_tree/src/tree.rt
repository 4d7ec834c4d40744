//! A tree of names.

ghost use Rattle.std.specs.Prelude.{◌≡◌};
ghost use Rattle.name_tree.specs.Trees.{key_of};

use indexmap::IndexMap;
use std::alloc::{AllocError, Global};

/// A tree of names. A node stands for a text: the one above it, a dot and its own part; those right
/// below the root, the node 0, have their part alone. Each part is kept once, however many nodes have
/// it, so that a node takes no more than a few numbers.
#[derive(Drop)]
pub struct NameTree {
    /// The numbers of parts.
    parts: IndexMap<String, u32>,
    /// How many numbers are given to parts.
    given: u32,
    /// All nodes but the root, each by the one above it and the number of its part.
    below: IndexMap<u64, u32>,
    /// How many nodes there are.
    nodes: u32,
}

/// By what the node right below another is kept, where its part has this number.
fn key_of(node: u32, number: u32) -> u64
    ensures { result ≡ key_of node number }
{
    node as u64 * 4_294_967_296 + number as u64
}

impl NameTree {
    ghost use Rattle.std.specs.Prelude.{◌≡◌, ◌<◌, ℕ, List, [], IfOk, OnOk, Some, None, nat_eq};
    ghost use Rattle.indexmap.specs.IndexMap.{get, get_by_text};
    ghost use Rattle.name_tree.specs.Walks.{walk, Grows};
    ghost use Rattle.name_tree.specs.Trees.{child, count, key_of, IsNameTree, Numbers};

    /// The root alone.
    pub fn new(alloc: Global) -> NameTree
        ensures tree { IsNameTree result }
        ensures root { count result ≡ 1 }
        ensures none { (node : ℕ) (part : List ℕ) → child result node part ≡ None }
    {
        NameTree {
            parts: IndexMap::new(alloc),
            given: 0,
            below: IndexMap::new(alloc),
            nodes: 1,
        }
    }

    /// The node right below a node, by its part.
    fn child(&self, node: u32, part: &str) -> Option<u32>
        ensures { result ≡ child self.now node part.now }
    {
        let number = self.parts.get(part).copied()?;
        let key = key_of(node, number);
        self.below.get(&key).copied()
    }

    /// Gives a number to a part that has none.
    fn give(&mut self, alloc: Global, part: &str) -> Result<u32, AllocError>
        requires tree { IsNameTree self.old }
        requires fresh { get_by_text self.old.parts part.now ≡ None }
        ensures numbers { OnOk result (Numbers self.old self.new) }
        ensures is { IfOk result (λ number. get_by_text self.new.parts part.now ≡ Some number) }
    {
        let number = self.given;
        if number == u32::MAX {
            return Err(AllocError);
        }
        let part = String::from_str(alloc, part)?;
        self.parts.insert(part, number)?;
        self.given = number + 1;
        Ok(number)
    }

    /// The number of a part; it is given one where it has none.
    fn number(&mut self, alloc: Global, part: &str) -> Result<u32, AllocError>
        requires { IsNameTree self.old }
        ensures numbers { OnOk result (Numbers self.old self.new) }
        ensures is { IfOk result (λ number. get_by_text self.new.parts part.now ≡ Some number) }
    {
        match self.parts.get(part).copied() {
            Some(known) => Ok(known),
            None => self.give(alloc, part),
        }
    }

    /// Adds a node right below a node that has none by the number of this part, and gives its number.
    fn add(&mut self, node: u32, number: u32) -> Result<u32, AllocError>
        requires tree { IsNameTree self.old }
        requires there { node < count self.old }
        requires given { number < self.old.given }
        requires fresh { get nat_eq self.old.below (key_of node number) ≡ None }
        ensures tree { OnOk result (IsNameTree self.new) }
        ensures grows { OnOk result (Grows (child self.old) (count self.old) (child self.new) (count self.new)) }
        ensures parts { OnOk result (self.new.parts ≡ self.old.parts) }
        ensures is { IfOk result (λ made. get nat_eq self.new.below (key_of node number) ≡ Some made) }
    {
        let made = self.nodes;
        if made == u32::MAX {
            return Err(AllocError);
        }
        self.below.insert(key_of(node, number), made)?;
        self.nodes = made + 1;
        Ok(made)
    }

    /// The node right below a node, by the number of its part; it is added where there is none.
    fn enter_number(&mut self, node: u32, number: u32) -> Result<u32, AllocError>
        requires tree { IsNameTree self.old }
        requires there { node < count self.old }
        requires given { number < self.old.given }
        ensures tree { OnOk result (IsNameTree self.new) }
        ensures grows { OnOk result (Grows (child self.old) (count self.old) (child self.new) (count self.new)) }
        ensures parts { OnOk result (self.new.parts ≡ self.old.parts) }
        ensures is { IfOk result (λ made. get nat_eq self.new.below (key_of node number) ≡ Some made) }
    {
        let key = key_of(node, number);
        match self.below.get(&key).copied() {
            Some(known) => Ok(known),
            None => self.add(node, number),
        }
    }

    /// The node right below a node, by its part; it is added where there is none.
    fn enter_part(&mut self, alloc: Global, node: u32, part: &str) -> Result<u32, AllocError>
        requires tree { IsNameTree self.old }
        requires there { node < count self.old }
        ensures tree { OnOk result (IsNameTree self.new) }
        ensures grows { OnOk result (Grows (child self.old) (count self.old) (child self.new) (count self.new)) }
        ensures is { IfOk result (λ made. child self.new node part.now ≡ Some made) }
    {
        let number = self.number(alloc, part)?;
        self.enter_number(node, number)
    }

    /// The node of this text below a node; none exactly where it was never entered.
    pub fn below(&self, node: u32, text: &str) -> Option<u32>
        ensures { result ≡ walk (child self.now) node [] text.now }
    {
        let mut at = node;
        let mut left = text;
        while let Some((part, rest)) = left.split_once('.') {
            at = self.child(at, part)?;
            left = rest;
        }
        self.child(at, left)
    }

    /// Enters a text below a node, and gives the node that stands for both.
    pub fn enter(&mut self, alloc: Global, node: u32, text: &str) -> Result<u32, AllocError>
        requires tree { IsNameTree self.old }
        requires there { node < count self.old }
        ensures tree { OnOk result (IsNameTree self.new) }
        ensures grows { OnOk result (Grows (child self.old) (count self.old) (child self.new) (count self.new)) }
        ensures is { IfOk result (λ made. walk (child self.new) node [] text.now ≡ Some made) }
    {
        let mut at = node;
        let mut left = text;
        while let Some((part, rest)) = left.split_once('.') {
            at = self.enter_part(alloc, at, part)?;
            left = rest;
        }
        self.enter_part(alloc, at, left)
    }
}
