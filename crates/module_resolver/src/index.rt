//! What has each full name in any file.

ghost use Rattle.std.specs.Prelude.{◌≡◌, ◌+◌, ◌<◌, ℕ, Bool, List, IfOk, OnOk, Some, None, if◌then◌else◌, filter};
ghost use Rattle.std.specs.Option.{option_map};
ghost use Rattle.std.specs.Str.{bytes_eq};
ghost use Rattle.mojom_files.specs.Refusals.{first_of};
ghost use Rattle.import_order.specs.Numbers.{number_of};
ghost use Rattle.module_resolver.specs.LookUp.{defined_in, enumerated_in, meant_by};
ghost use Rattle.module_resolver.specs.Seats.{file_of, owner, held};
ghost use Rattle.module_resolver.specs.steps.Owners.{where_seen, Notes};
ghost use Rattle.module_resolver.specs.Enums.{names_in_enum};
ghost use Rattle.module_resolver.specs.steps.Held.{IsSound, IsEntry, Entered, KeepsNodes};
ghost use Rattle.name_tree.specs.Trees.{count};
ghost use Rattle.mj_base.specs.Names.{within, named_in, full_name};

use crate::dots::{count_within, dots_in, sum};
use crate::entry::Entry;
use crate::enumerator_names::{EnumNames, EnumeratorNames};
use crate::file_names::FileNames;
use crate::name_index::NameIndex;
use crate::target::Target;
use mj_base::{FullName, NameParts, SharedText};
use std::alloc::{AllocError, Global};

/// Enters a name that stands in no other.
fn enter_alone(alloc: Global, index: &mut NameIndex, name: &str) -> Result<Entry, AllocError>
    requires { IsSound index.old }
    ensures entered { OnOk result (Entered index.old index.new) }
    ensures is { IfOk result (λ made. IsEntry index.new name.now made) }
{
    let node = index.enter(alloc, 0, name)?;
    let dots = dots_in(name);
    Ok(Entry { node, dots })
}

/// Enters a name within the one that stands here.
fn enter_below(
    alloc: Global,
    index: &mut NameIndex,
    entry: Entry,
    name: &str,
) -> Result<Entry, AllocError>
    requires sound { IsSound index.old }
    requires there { entry.node < count index.old.tree }
    ensures entered { OnOk result (Entered index.old index.new) }
    ensures is { IfOk result (λ made. (outer : List ℕ) → IsEntry index.old outer entry → IsEntry index.new (within outer name.now) made) }
{
    let node = index.enter(alloc, entry.node, name)?;
    let dots = count_within(entry.dots, dots_in(name))?;
    Ok(Entry { node, dots })
}

/// Enters the name of a module; where it is that of the file's, which stands here, it is not walked through
/// anew.
fn enter_module(
    alloc: Global,
    index: &mut NameIndex,
    around: &str,
    at: Entry,
    name: &str,
) -> Result<Entry, AllocError>
    requires sound { IsSound index.old }
    requires at { IsEntry index.old around.now at }
    ensures entered { OnOk result (Entered index.old index.new) }
    ensures is { IfOk result (λ made. IsEntry index.new name.now made) }
{
    if name == around {
        return Ok(at);
    }
    enter_alone(alloc, index, name)
}

/// Enters a name within that of its module, where it has one; the file's module stands here.
fn enter_in(
    alloc: Global,
    index: &mut NameIndex,
    around: &str,
    at: Entry,
    module_name: &Option<SharedText>,
    name: &str,
) -> Result<Entry, AllocError>
    requires sound { IsSound index.old }
    requires at { IsEntry index.old around.now at }
    ensures entered { OnOk result (Entered index.old index.new) }
    ensures is { IfOk result (λ made. IsEntry index.new (named_in module_name.now name.now) made) }
{
    match module_name {
        Some(outer) => {
            let entry = enter_module(alloc, index, around, at, outer.as_str())?;
            let made = enter_below(alloc, index, entry, name)?;
            Ok(made)
        }
        None => enter_alone(alloc, index, name),
    }
}

/// Enters a full name, where the file's module stands here.
fn enter_full(
    alloc: Global,
    index: &mut NameIndex,
    around: &str,
    at: Entry,
    name: NameParts<'_>,
) -> Result<Entry, AllocError>
    requires sound { IsSound index.old }
    requires at { IsEntry index.old around.now at }
    ensures entered { OnOk result (Entered index.old index.new) }
    ensures is { IfOk result (λ made. IsEntry index.new (full_name name.entry.module_name.now name.entry.outer.now name.entry.name.now) made) }
{
    match name.outer {
        Some(outer) => {
            let entry = enter_in(alloc, index, around, at, name.module_name, outer.as_str())?;
            let made = enter_below(alloc, index, entry, name.name)?;
            Ok(made)
        }
        None => enter_in(alloc, index, around, at, name.module_name, name.name),
    }
}

/// Enters a full name that is kept, where the file's module stands here.
fn enter_kept(
    alloc: Global,
    index: &mut NameIndex,
    around: &str,
    at: Entry,
    name: &FullName,
) -> Result<Entry, AllocError>
    requires sound { IsSound index.old }
    requires at { IsEntry index.old around.now at }
    ensures entered { OnOk result (Entered index.old index.new) }
    ensures is { IfOk result (λ made. IsEntry index.new name.now made) }
{
    let made = enter_full(alloc, index, around, at, name.parts())?;
    Ok(made)
}

/// Notes what has a full name, behind all that has it already, where the file's module stands here.
fn note(
    alloc: Global,
    index: &mut NameIndex,
    around: &str,
    at: Entry,
    name: &FullName,
    target: Target,
) -> Result<(), AllocError>
    requires sound { IsSound index.old }
    requires at { IsEntry index.old around.now at }
    ensures sound { OnOk result (IsSound index.new) }
    ensures nodes { OnOk result (KeepsNodes index.old index.new) }
    ensures notes { OnOk result (Notes (held index.old) (held index.new)
        (λ p q. if bytes_eq q name.now then where_seen p (file_of target) (Some target) else None)) }
{
    let made = enter_kept(alloc, index, around, at, name)?;
    index.note(alloc, made, target)
}

/// Notes the definitions of a file, whose module this is.
fn note_definitions(
    alloc: Global,
    index: &mut NameIndex,
    file: u32,
    around: &str,
    names: &[FullName],
) -> Result<(), AllocError>
    requires { IsSound index.old }
    ensures sound { OnOk result (IsSound index.new) }
    ensures notes { OnOk result (Notes (held index.old) (held index.new)
        (λ p q. where_seen p file (option_map (λ n. Target.Definition file n) (number_of q names.now)))) }
{
    let at = enter_alone(alloc, index, around)?;
    for (number, name) in names.iter().enumerate() {
        let target = Target::Definition { file, number };
        note(alloc, index, around, at, name, target)?;
    }
    Ok(())
}

/// Notes what has a name within this one, which stands here, behind all that has it already.
fn note_within(
    alloc: Global,
    index: &mut NameIndex,
    _outer: &FullName,
    entry: Entry,
    name: &str,
    target: Target,
) -> Result<(), AllocError>
    requires sound { IsSound index.old }
    requires at { IsEntry index.old _outer.now entry }
    ensures sound { OnOk result (IsSound index.new) }
    ensures nodes { OnOk result (KeepsNodes index.old index.new) }
    ensures notes { OnOk result (Notes (held index.old) (held index.new)
        (λ p q. if bytes_eq q (within _outer.now name.now) then where_seen p (file_of target) (Some target) else None)) }
{
    let made = enter_below(alloc, index, entry, name)?;
    index.note(alloc, made, target)
}

/// Notes the enumerators of an enum, the first of which has this number, where the file's module stands
/// here.
fn note_enum(
    alloc: Global,
    index: &mut NameIndex,
    file: u32,
    around: &str,
    at: Entry,
    first: usize,
    one: &EnumNames,
) -> Result<(), AllocError>
    requires sound { IsSound index.old }
    requires at { IsEntry index.old around.now at }
    ensures sound { OnOk result (IsSound index.new) }
    ensures nodes { OnOk result (KeepsNodes index.old index.new) }
    ensures notes { OnOk result (Notes (held index.old) (held index.new)
        (λ p q. where_seen p file (option_map (λ n. Target.Enumerator file (first + n)) (number_of q (names_in_enum one.now))))) }
{
    let inner = enter_kept(alloc, index, around, at, &one.outer)?;
    let names = one.names.as_slice();
    for (place, name) in names.iter().enumerate() {
        let number = sum(first, place)?;
        let target = Target::Enumerator { file, number };
        note_within(alloc, index, &one.outer, inner, name.as_str(), target)?;
    }
    Ok(())
}

/// Notes the enumerators of a file, whose module this is.
fn note_enumerators(
    alloc: Global,
    index: &mut NameIndex,
    file: u32,
    around: &str,
    names: &EnumeratorNames,
) -> Result<(), AllocError>
    requires { IsSound index.old }
    ensures sound { OnOk result (IsSound index.new) }
    ensures notes { OnOk result (Notes (held index.old) (held index.new)
        (λ p q. where_seen p file (option_map (λ n. Target.Enumerator file n) (number_of q names.now)))) }
{
    let at = enter_alone(alloc, index, around)?;
    let enums = names.enums();
    let mut first = 0;
    for one in enums {
        note_enum(alloc, index, file, around, at, first, one)?;
        first = sum(first, one.names.len())?;
    }
    Ok(())
}

/// Notes the definitions of the file of this number.
fn note_defined(
    alloc: Global,
    index: &mut NameIndex,
    files: &[FileNames],
    file: u32,
) -> Result<(), AllocError>
    requires { IsSound index.old }
    ensures sound { OnOk result (IsSound index.new) }
    ensures notes { OnOk result (Notes (held index.old) (held index.new) (λ p q. where_seen p file (defined_in files.now q file))) }
{
    match files.get(file as usize) {
        Some(names) => {
            let around = names.fronts.whole();
            note_definitions(alloc, index, file, around, names.definitions.as_slice())
        }
        None => Ok(()),
    }
}

/// Notes the enumerators of the file of this number.
fn note_enumerated(
    alloc: Global,
    index: &mut NameIndex,
    files: &[FileNames],
    file: u32,
) -> Result<(), AllocError>
    requires { IsSound index.old }
    ensures sound { OnOk result (IsSound index.new) }
    ensures notes { OnOk result (Notes (held index.old) (held index.new) (λ p q. where_seen p file (enumerated_in files.now q file))) }
{
    match files.get(file as usize) {
        Some(names) => {
            let around = names.fronts.whole();
            note_enumerators(alloc, index, file, around, &names.enumerators)
        }
        None => Ok(()),
    }
}

/// Notes all definitions, for file after file.
fn note_all_defined(
    alloc: Global,
    index: &mut NameIndex,
    files: &[FileNames],
    order: &[u32],
) -> Result<(), AllocError>
    requires { IsSound index.old }
    ensures sound { OnOk result (IsSound index.new) }
    ensures notes { OnOk result (Notes (held index.old) (held index.new) (λ p q. first_of (defined_in files.now q) (filter p order.now))) }
{
    for file in order {
        note_defined(alloc, index, files, *file)?;
    }
    Ok(())
}

/// Notes all enumerators, for file after file.
fn note_all_enumerated(
    alloc: Global,
    index: &mut NameIndex,
    files: &[FileNames],
    order: &[u32],
) -> Result<(), AllocError>
    requires { IsSound index.old }
    ensures sound { OnOk result (IsSound index.new) }
    ensures notes { OnOk result (Notes (held index.old) (held index.new) (λ p q. first_of (enumerated_in files.now q) (filter p order.now))) }
{
    for file in order {
        note_enumerated(alloc, index, files, *file)?;
    }
    Ok(())
}

/// What has each full name: the definitions of all files, in this order of files, and then the
/// enumerators.
pub(crate) fn index_of(
    alloc: Global,
    files: &[FileNames],
    order: &[u32],
) -> Result<NameIndex, AllocError>
    ensures sound { IfOk result (λ index. IsSound index) }
    ensures is { IfOk result (λ index. (p : ℕ → Bool) (q : List ℕ) → owner (held index) p q ≡ meant_by files.now (filter p order.now) q) }
{
    let mut index = NameIndex::new(alloc);
    note_all_defined(alloc, &mut index, files, order)?;
    note_all_enumerated(alloc, &mut index, files, order)?;
    Ok(index)
}
