//! A schema's interfaces by their full names.

ghost use Rattle.std.specs.Prelude.{◌≡◌, ◌<◌, ◌^◌, [], length, nat_eq, IfOk, OnOk, Some};
ghost use Rattle.std.specs.Str.{IsAscii};
ghost use Rattle.indexmap.specs.IndexMap.{get};
ghost use Rattle.mj_base.specs.Names.{within, named_in, full_name};
ghost use Rattle.mj_schema.specs.Lookups.{interface_named};
ghost use Rattle.name_tree.specs.Walks.{walk, Grows};
ghost use Rattle.name_tree.specs.Trees.{child, count, IsNameTree};
ghost use Rattle.call_script.specs.steps.Interfaces.{number_at, numbered, is_name, are_same, AreNumbered, AreKept, IsIndexed, IsKept, IsNoted, StandsAt};

use indexmap::IndexMap;
use mj_base::{NameParts, SharedText, shared};
use mj_schema::{InterfaceRow, Schema};
use name_tree::NameTree;
use std::alloc::{AllocError, Global};

/// The numbers of interfaces by their full names: a tree of these by their parts, so that what they begin
/// with is kept once, and the numbers by its nodes. Of equal names the first counts.
#[derive(Drop)]
pub(crate) struct NumberedNames {
    pub tree: NameTree,
    pub numbers: IndexMap<u32, u32>,
}

/// A schema with the numbers of its interfaces by their full names.
#[derive(Drop)]
pub(crate) struct IndexedSchema<'a> {
    pub schema: &'a Schema,
    pub names: NumberedNames,
}

/// The nodes of a full name: that below which the names in its module stand, and its own.
#[derive(Clone, Copy)]
struct Entered {
    front: u32,
    node: u32,
}

/// Whether there is a name, and it is this one.
fn is_name(known: &Option<SharedText>, name: &str) -> bool
    ensures { result ≡ is_name known.now name.now }
{
    match known {
        Some(known) => known.as_str() == name,
        None => false,
    }
}

/// Whether there is one name, or none in both.
fn are_same(one: &Option<SharedText>, other: &Option<SharedText>) -> bool
    ensures { result ≡ are_same one.now other.now }
{
    match other {
        Some(other) => is_name(one, other.as_str()),
        None => !one.is_some(),
    }
}

/// Enters the name of a module, where there is one, and gives the node below which the names in it stand:
/// the root where there is none.
fn enter_module(
    alloc: Global,
    tree: &mut NameTree,
    name: &Option<SharedText>,
) -> Result<u32, AllocError>
    requires tree { IsNameTree tree.old }
    requires root { 0 < count tree.old }
    ensures tree { OnOk result (IsNameTree tree.new) }
    ensures grows { OnOk result (Grows (child tree.old) (count tree.old) (child tree.new) (count tree.new)) }
    ensures is { IfOk result (λ node. StandsAt tree.new name.now node) }
{
    match name {
        Some(name) => tree.enter(alloc, 0, name.as_str()),
        None => Ok(0),
    }
}

/// Enters a name within another below a node, and gives the node of all.
fn enter_within(
    alloc: Global,
    tree: &mut NameTree,
    node: u32,
    outer: &str,
    name: &str,
) -> Result<u32, AllocError>
    requires tree { IsNameTree tree.old }
    requires there { node < count tree.old }
    ensures tree { OnOk result (IsNameTree tree.new) }
    ensures grows { OnOk result (Grows (child tree.old) (count tree.old) (child tree.new) (count tree.new)) }
    ensures is { IfOk result (λ made. walk (child tree.new) node [] (within outer.now name.now) ≡ Some made) }
{
    let inner = tree.enter(alloc, node, outer)?;
    let made = tree.enter(alloc, inner, name)?;
    Ok(made)
}

/// Enters a name below a node, within another where there is one, and gives the node of all.
fn enter_below(
    alloc: Global,
    tree: &mut NameTree,
    node: u32,
    outer: &Option<SharedText>,
    name: &str,
) -> Result<u32, AllocError>
    requires tree { IsNameTree tree.old }
    requires there { node < count tree.old }
    ensures tree { OnOk result (IsNameTree tree.new) }
    ensures grows { OnOk result (Grows (child tree.old) (count tree.old) (child tree.new) (count tree.new)) }
    ensures is { IfOk result (λ made. walk (child tree.new) node [] (named_in outer.now name.now) ≡ Some made) }
{
    match outer {
        Some(outer) => enter_within(alloc, tree, node, outer.as_str(), name),
        None => tree.enter(alloc, node, name),
    }
}

/// The node below which the names in a module stand: where it is the module that stands here, that isn't
/// walked through anew.
fn module_node(
    alloc: Global,
    tree: &mut NameTree,
    around: &Option<SharedText>,
    at: u32,
    name: &Option<SharedText>,
) -> Result<u32, AllocError>
    requires tree { IsNameTree tree.old }
    requires root { 0 < count tree.old }
    requires stands { StandsAt tree.old around.now at }
    ensures tree { OnOk result (IsNameTree tree.new) }
    ensures grows { OnOk result (Grows (child tree.old) (count tree.old) (child tree.new) (count tree.new)) }
    ensures is { IfOk result (λ node. StandsAt tree.new name.now node) }
{
    if are_same(around, name) {
        return Ok(at);
    }
    enter_module(alloc, tree, name)
}

/// Enters a full name, and gives its nodes; the names in some module stand here.
fn enter_full(
    alloc: Global,
    tree: &mut NameTree,
    around: &Option<SharedText>,
    at: u32,
    name: NameParts<'_>,
) -> Result<Entered, AllocError>
    requires tree { IsNameTree tree.old }
    requires root { 0 < count tree.old }
    requires stands { StandsAt tree.old around.now at }
    ensures tree { OnOk result (IsNameTree tree.new) }
    ensures grows { OnOk result (Grows (child tree.old) (count tree.old) (child tree.new) (count tree.new)) }
    ensures stands { IfOk result (λ made. StandsAt tree.new name.entry.module_name.now made.front) }
    ensures is { IfOk result (λ made.
        walk (child tree.new) 0 [] (full_name name.entry.module_name.now name.entry.outer.now name.entry.name.now) ≡ Some made.node) }
{
    let front = module_node(alloc, tree, around, at, name.module_name)?;
    let node = enter_below(alloc, tree, front, name.outer, name.name)?;
    Ok(Entered { front, node })
}

/// Keeps the number of a node, where it has none yet.
fn keep(numbers: &mut IndexMap<u32, u32>, node: u32, number: u32) -> Result<(), AllocError>
    ensures { OnOk result (IsKept (get nat_eq numbers.old) (get nat_eq numbers.new) node number) }
{
    if let Some(_first) = numbers.get(&node) {
        return Ok(());
    }
    numbers.insert(node, number)?;
    Ok(())
}

/// Notes the number of a full name, where it has none yet, and gives the node below which the names in its
/// module stand; those in some module stand here.
fn note(
    alloc: Global,
    tree: &mut NameTree,
    numbers: &mut IndexMap<u32, u32>,
    around: &Option<SharedText>,
    at: u32,
    name: NameParts<'_>,
    number: u32,
) -> Result<u32, AllocError>
    requires kept { AreKept tree.old (get nat_eq numbers.old) }
    requires stands { StandsAt tree.old around.now at }
    ensures kept { OnOk result (AreKept tree.new (get nat_eq numbers.new)) }
    ensures stands { IfOk result (λ front. StandsAt tree.new name.entry.module_name.now front) }
    ensures noted { OnOk result (IsNoted (number_at tree.old (get nat_eq numbers.old)) (number_at tree.new (get nat_eq numbers.new))
        (full_name name.entry.module_name.now name.entry.outer.now name.entry.name.now) number) }
{
    let made = enter_full(alloc, tree, around, at, name)?;
    keep(numbers, made.node, number)?;
    Ok(made.front)
}

/// The numbers of interfaces by their full names.
fn number_all(alloc: Global, interfaces: &[InterfaceRow]) -> Result<NumberedNames, AllocError>
    requires { length interfaces.now < 2 ^ 32 }
    ensures { IfOk result (λ names. AreNumbered (numbered names) interfaces.now) }
{
    let mut tree = NameTree::new(alloc);
    let mut numbers = IndexMap::new(alloc);
    let mut around = None;
    let mut at = 0;
    for (number, interface) in interfaces.iter().enumerate() {
        let name = interface.name.parts();
        let module_name = name.module_name;
        at = note(
            alloc,
            &mut tree,
            &mut numbers,
            &around,
            at,
            name,
            number as u32,
        )?;
        around = shared(module_name)?;
    }
    Ok(NumberedNames { tree, numbers })
}

/// A schema with its interfaces numbered.
pub(crate) fn index(alloc: Global, schema: &Schema) -> Result<IndexedSchema, AllocError>
    ensures value { IfOk result (λ indexed. indexed.schema.now ≡ schema.now) }
    ensures indexed { IfOk result (λ indexed. IsIndexed indexed) }
{
    let names = number_all(alloc, schema.interfaces.as_slice())?;
    Ok(IndexedSchema { schema, names })
}

/// The number of a full name.
fn number_of(names: &NumberedNames, name: &str) -> Option<u32>
    ensures { result ≡ numbered names.now name.now }
{
    let node = names.tree.below(0, name)?;
    names.numbers.get(&node).copied()
}

/// The most interfaces among which a name is sought by comparing it with each, which is quicker than the tree there.
const FEW: usize = 8;

/// The number of the interface whose full name has these bytes, which are a part of a word.
pub(crate) fn interface_named(indexed: &IndexedSchema, name: &[u8]) -> Option<u32>
    requires indexed { IsIndexed indexed.now }
    requires text { IsAscii name.now }
    ensures { result ≡ interface_named indexed.now.schema.now.interfaces name.now }
{
    if indexed.schema.interfaces.len() <= FEW {
        return indexed.schema.find_interface_of(name);
    }
    match str::from_utf8(name) {
        Ok(text) => number_of(&indexed.names, text),
        Err(_) => unreachable!(),
    }
}
