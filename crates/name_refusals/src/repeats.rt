//! Names that stand twice.

ghost use Rattle.std.specs.Prelude.{◌≡◌, [], ◌∷◌, IfOk, OnOk, map, fold, if◌then◌else◌};
ghost use Rattle.std.specs.List.{flat_map};
ghost use Rattle.mojom_files.specs.Refusals.{best_of};
ghost use Rattle.mojom_files.specs.Views.{item_view};
ghost use Rattle.name_refusals.specs.Known.{with_name};
ghost use Rattle.name_refusals.specs.steps.Sets.{holds};
ghost use Rattle.name_refusals.specs.steps.Trees.{knows, AreKnown};
ghost use Rattle.name_refusals.specs.Uses.{response_of};
ghost use Rattle.name_refusals.specs.NameRefusals.{duplicate, method_name, parameter_names, parameter_lists, member_lists};
ghost use Rattle.name_refusals.specs.NameRefusals.{repeated_members, repeated_definitions, named_as_basic, repeated_in};

use crate::known_names::KnownNames;
use crate::lists::{enumerator_names, field_names, method_names, parameter_names, union_names};
use crate::name_set::NameSet;
use mj_base::{Items, Text};
use mojom_ast::{Identifier, InterfaceItem, InterfaceMember, Parameter};
use mojom_files::{Basic, Cause, DefinitionView, ItemView, NamedCause, Refusal, keep};
use std::alloc::{AllocError, Global};

/// Refuses an identifier as one that stands twice, and keeps the first refusal.
fn refuse(
    alloc: Global,
    file: u32,
    name: &Identifier,
    best: &mut Option<Refusal>,
) -> Result<(), AllocError>
    ensures { OnOk result (best.new ≡ best_of best.old (duplicate file name.now ∷ [])) }
{
    let text = Text::from_str(alloc, name.text.as_str())?;
    let cause = Cause::named(NamedCause::DuplicateName, text);
    let at = name.span.start;
    keep(best, Refusal { file, at, cause });
    Ok(())
}

/// Refuses an identifier whose name is known, and adds the name to those that are known.
fn check_one(
    alloc: Global,
    file: u32,
    known: &mut NameSet,
    full: &str,
    name: &Identifier,
    best: &mut Option<Refusal>,
) -> Result<(), AllocError>
    ensures kept { OnOk result (best.new ≡ best_of best.old (map (duplicate file) (if holds known.old full.now then name.now ∷ [] else []))) }
    ensures added { OnOk result (holds known.new ≡ with_name (holds known.old) full.now) }
{
    if known.contains(full) {
        refuse(alloc, file, name, best)?;
    }
    known.add(alloc, full)
}

/// Refuses members of a list whose name a member before them has.
fn check_list(
    alloc: Global,
    file: u32,
    names: &[&Identifier],
    best: &mut Option<Refusal>,
) -> Result<(), AllocError>
    ensures { OnOk result (best.new ≡ best_of best.old (map (duplicate file) (repeated_members (map (λ n. n.now) names.now)))) }
{
    let mut known = NameSet::new(alloc);
    for name in names {
        check_one(alloc, file, &mut known, name.text.as_str(), name, best)?;
    }
    Ok(())
}

/// Adds the full name of a definition to those that are known, and says whether it was one of them.
fn add_full(
    alloc: Global,
    known: &mut KnownNames,
    view: &DefinitionView<'_>,
) -> Result<bool, AllocError>
    requires { AreKnown known.old }
    ensures known { OnOk result (AreKnown known.new) }
    ensures was { IfOk result (λ was. was ≡ knows known.old view.now.full) }
    ensures added { OnOk result (knows known.new ≡ with_name (knows known.old) view.now.full) }
{
    let was = known.add(alloc, view.parts())?;
    Ok(was)
}

/// Refuses a definition whose full name is known, and adds the name to those that are known.
fn check_full_name(
    alloc: Global,
    file: u32,
    known: &mut KnownNames,
    view: &DefinitionView<'_>,
    best: &mut Option<Refusal>,
) -> Result<(), AllocError>
    requires { AreKnown known.old }
    ensures known { OnOk result (AreKnown known.new) }
    ensures kept { OnOk result (best.new ≡ best_of best.old (map (duplicate file) (if knows known.old view.now.full then view.now.name ∷ [] else []))) }
    ensures added { OnOk result (knows known.new ≡ with_name (knows known.old) view.now.full) }
{
    let was_known = add_full(alloc, known, view)?;
    if was_known {
        refuse(alloc, file, view.name(), best)?;
    }
    Ok(())
}

/// Refuses definitions whose full name is known, and adds their names to those that are known.
fn check_full_names(
    alloc: Global,
    file: u32,
    known: &mut KnownNames,
    views: &[DefinitionView<'_>],
    best: &mut Option<Refusal>,
) -> Result<(), AllocError>
    requires { AreKnown known.old }
    ensures known { OnOk result (AreKnown known.new) }
    ensures kept { OnOk result (best.new ≡ best_of best.old (map (duplicate file) (repeated_definitions (knows known.old) views.now))) }
    ensures added { OnOk result (knows known.new ≡ fold with_name (knows known.old) (map (λ d. d.full) views.now)) }
{
    for view in views {
        check_full_name(alloc, file, known, view, best)?;
    }
    Ok(())
}

/// Refuses definitions that are named as a basic kind.
fn check_basic_names(
    alloc: Global,
    file: u32,
    views: &[DefinitionView<'_>],
    best: &mut Option<Refusal>,
) -> Result<(), AllocError>
    ensures { OnOk result (best.new ≡ best_of best.old (map (duplicate file) (flat_map named_as_basic views.now))) }
{
    for view in views {
        let name = view.name();
        if Basic::of_name(name.text.as_str()).is_some() {
            refuse(alloc, file, name, best)?;
        }
    }
    Ok(())
}

/// Refuses parameters of a list whose name a parameter before them has.
fn check_parameters(
    alloc: Global,
    file: u32,
    parameters: &[Parameter],
    best: &mut Option<Refusal>,
) -> Result<(), AllocError>
    ensures { OnOk result (best.new ≡ best_of best.old (map (duplicate file) (repeated_members (parameter_names parameters.now)))) }
{
    check_list(
        alloc,
        file,
        parameter_names(alloc, parameters)?.as_slice(),
        best,
    )
}

/// Refuses parameters of a response, where there is one, whose name a parameter before them has.
fn check_response(
    alloc: Global,
    file: u32,
    response: &Option<Items<Parameter>>,
    best: &mut Option<Refusal>,
) -> Result<(), AllocError>
    ensures { OnOk result (best.new ≡ best_of best.old (map (duplicate file) (repeated_members (parameter_names (response_of response.now))))) }
{
    match response {
        Some(parameters) => check_parameters(alloc, file, parameters.as_slice(), best),
        None => Ok(()),
    }
}

/// Refuses parameters of methods whose name a parameter before them, in the same list, has.
fn check_parameter_lists(
    alloc: Global,
    file: u32,
    members: &[InterfaceMember],
    best: &mut Option<Refusal>,
) -> Result<(), AllocError>
    ensures { let lists = flat_map (λ m. parameter_lists m.item) members.now in
        OnOk result (best.new ≡ best_of best.old (map (duplicate file) (flat_map repeated_members lists))) }
{
    for member in members {
        if let InterfaceItem::Method(method) = &member.item {
            check_parameters(alloc, file, method.request.as_slice(), best)?;
            check_response(alloc, file, &method.response, best)?;
        }
    }
    Ok(())
}

/// Refuses methods whose name a method before them has.
fn check_methods(
    alloc: Global,
    file: u32,
    members: &[InterfaceMember],
    best: &mut Option<Refusal>,
) -> Result<(), AllocError>
    ensures { OnOk result (best.new ≡ best_of best.old (map (duplicate file) (repeated_members (flat_map (λ m. method_name m.item) members.now)))) }
{
    let names = method_names(alloc, members)?;
    check_list(alloc, file, names.as_slice(), best)
}

/// Refuses members of a definition whose name a member before them, in the same list, has.
fn check_item(
    alloc: Global,
    file: u32,
    item: ItemView<'_>,
    best: &mut Option<Refusal>,
) -> Result<(), AllocError>
    ensures { OnOk result (best.new ≡ best_of best.old (map (duplicate file) (flat_map repeated_members (member_lists (item_view item.entry))))) }
{
    match item {
        ItemView::Struct(item) => {
            let names = field_names(alloc, item.members.as_slice())?;
            check_list(alloc, file, names.as_slice(), best)
        }
        ItemView::Union(item) => {
            let names = union_names(alloc, item.fields.as_slice())?;
            check_list(alloc, file, names.as_slice(), best)
        }
        ItemView::Enum(item) => {
            let names = enumerator_names(alloc, item.enumerators.as_slice())?;
            check_list(alloc, file, names.as_slice(), best)
        }
        ItemView::Interface(item) => {
            check_methods(alloc, file, item.members.as_slice(), best)?;
            check_parameter_lists(alloc, file, item.members.as_slice(), best)
        }
        ItemView::Const(_) => Ok(()),
    }
}

/// Refuses members of definitions whose name a member before them, in the same list, has.
fn check_items(
    alloc: Global,
    file: u32,
    views: &[DefinitionView<'_>],
    best: &mut Option<Refusal>,
) -> Result<(), AllocError>
    ensures { let lists = flat_map (λ d. member_lists d.item) views.now in
        OnOk result (best.new ≡ best_of best.old (map (duplicate file) (flat_map repeated_members lists))) }
{
    for view in views {
        check_item(alloc, file, view.item(), best)?;
    }
    Ok(())
}

/// Refuses identifiers of definitions that can't be named so: those of full names that are known or
/// stand twice, of basic kinds, and of members that stand twice in one list. Adds the full names to
/// those that are known.
pub fn check_repeats(
    alloc: Global,
    file: u32,
    known: &mut KnownNames,
    views: &[DefinitionView<'_>],
    best: &mut Option<Refusal>,
) -> Result<(), AllocError>
    requires { AreKnown known.old }
    ensures known { OnOk result (AreKnown known.new) }
    ensures kept { OnOk result (best.new ≡ best_of best.old (map (duplicate file) (repeated_in (knows known.old) views.now))) }
    ensures added { OnOk result (knows known.new ≡ fold with_name (knows known.old) (map (λ d. d.full) views.now)) }
{
    check_full_names(alloc, file, known, views, best)?;
    check_basic_names(alloc, file, views, best)?;
    check_items(alloc, file, views, best)
}
