//! The definitions of a file.

ghost use Rattle.std.specs.Prelude.{◌≡◌, ◌++◌, OnOk, Some};
ghost use Rattle.mojom_files.specs.Definitions.{enumerators_of};
ghost use Rattle.mojom_files.specs.Refusals.{best_of};
ghost use Rattle.mojom_files.specs.Views.{item_view};
ghost use Rattle.const_eval.specs.Things.{numbered};
ghost use Rattle.const_eval.specs.Refused.{refused_struct, refused_union, refused_interface};
ghost use Rattle.const_eval.specs.steps.Views.{site_of, site_at};
ghost use Rattle.const_eval.specs.Refused.{refused_item, refused_definition, refused_enumerator, refused_enumerators};
ghost use Rattle.const_eval.specs.Evaluated.{refused_things};

use crate::consts::Consts;
use crate::file_things::FileThings;
use crate::here::Here;
use crate::members::{
    check_enumerators, check_interface_members, check_struct_members, check_union_fields,
};
use crate::ordinals::{check_ordinals, interface_members, struct_members, union_members};
use crate::things::behind;
use crate::trees::enumerators_of;
use crate::values::check_const;
use crate::versions::check_versions;
use module_resolver::Place;
use mojom_ast::{Interface, Struct, Union};
use mojom_files::{DefinitionView, ItemView, NamedFile, Refusal, definitions};
use std::alloc::{AllocError, Global};

/// Tests the fields of a struct.
fn check_struct(
    alloc: Global,
    best: &mut Option<Refusal>,
    consts: &Consts,
    place: &Place<'_>,
    item: &Struct,
) -> Result<(), AllocError>
    ensures { OnOk result (best.new ≡ best_of best.old (refused_struct (site_at consts.now place.now) place.now.enclosing item.now)) }
{
    check_struct_members(alloc, best, consts, place, item.members.as_slice())?;
    let members = struct_members(alloc, item.members.as_slice())?;
    check_ordinals(best, place.file(), members.as_slice());
    Ok(())
}

/// Tests the fields of a union.
fn check_union(
    alloc: Global,
    best: &mut Option<Refusal>,
    consts: &Consts,
    place: &Place<'_>,
    item: &Union,
) -> Result<(), AllocError>
    ensures { OnOk result (best.new ≡ best_of best.old (refused_union (site_at consts.now place.now) place.now.enclosing item.now)) }
{
    check_union_fields(alloc, best, consts, place, item.fields.as_slice())?;
    let members = union_members(alloc, item.fields.as_slice())?;
    check_ordinals(best, place.file(), members.as_slice());
    Ok(())
}

/// Tests the methods of an interface.
fn check_interface(
    alloc: Global,
    best: &mut Option<Refusal>,
    consts: &Consts,
    place: &Place<'_>,
    item: &Interface,
) -> Result<(), AllocError>
    ensures { OnOk result (best.new ≡ best_of best.old (refused_interface (site_at consts.now place.now) place.now.enclosing item.now)) }
{
    check_interface_members(alloc, best, consts, place, item.members.as_slice())?;
    let members = interface_members(alloc, item.members.as_slice())?;
    check_ordinals(best, place.file(), members.as_slice());
    Ok(())
}

/// Tests what a definition has, but for its enumerators; the definition is the thing of this number.
fn check_item(
    alloc: Global,
    best: &mut Option<Refusal>,
    consts: &Consts,
    place: &Place<'_>,
    thing: usize,
    item: ItemView<'_>,
) -> Result<(), AllocError>
    ensures { OnOk result (best.new ≡ best_of best.old (refused_item (site_at consts.now place.now) thing place.now.enclosing (item_view item.entry))) }
{
    match item {
        ItemView::Struct(item) => check_struct(alloc, best, consts, place, item),
        ItemView::Union(item) => check_union(alloc, best, consts, place, item),
        ItemView::Interface(item) => check_interface(alloc, best, consts, place, item),
        ItemView::Const(item) => check_const(alloc, best, consts, place, thing, item),
        ItemView::Enum(_) => Ok(()),
    }
}

/// Tests what stands in a definition, which is the thing of this number, but for its enumerators.
fn check_within(
    alloc: Global,
    best: &mut Option<Refusal>,
    here: &Here<'_>,
    thing: usize,
    definition: &DefinitionView<'_>,
) -> Result<(), AllocError>
    ensures { OnOk result (best.new ≡ best_of best.old (refused_item (site_of here.now) thing (Some definition.now.full) definition.now.item)) }
{
    let full = Some(definition.full(alloc)?);
    let inside = here.names.place(here.file, &full);
    let item = definition.item();
    check_item(alloc, best, here.consts, &inside, thing, item)
}

/// Tests a definition, which is the thing of this number, but for its enumerators.
fn check_definition(
    alloc: Global,
    best: &mut Option<Refusal>,
    here: &Here<'_>,
    thing: usize,
    definition: &DefinitionView<'_>,
) -> Result<(), AllocError>
    ensures { OnOk result (best.new ≡ best_of best.old (refused_definition (site_of here.now) thing definition.now)) }
{
    let name = definition.name();
    let attributes = definition.attributes();
    let enclosing = definition.enclosing(alloc)?;
    let around = here.names.place(here.file, &enclosing);
    check_versions(alloc, best, here.consts, &around, name, attributes)?;
    check_within(alloc, best, here, thing, definition)
}

/// Tests definitions, the first of which is the thing of this number, but for their enumerators.
fn check_definitions(
    alloc: Global,
    best: &mut Option<Refusal>,
    here: &Here<'_>,
    first: usize,
    definitions: &[DefinitionView<'_>],
) -> Result<(), AllocError>
    ensures { OnOk result (best.new ≡ best_of best.old (numbered (refused_definition (site_of here.now)) first definitions.now)) }
{
    for (number, definition) in definitions.iter().enumerate() {
        let thing = behind(first, number)?;
        check_definition(alloc, best, here, thing, definition)?;
    }
    Ok(())
}

/// Tests the enumerators of a definition, the first of which is the thing of this number.
fn check_enumerators_of(
    alloc: Global,
    best: &mut Option<Refusal>,
    here: &Here<'_>,
    thing: usize,
    definition: &DefinitionView<'_>,
) -> Result<(), AllocError>
    ensures { OnOk result (best.new ≡ best_of best.old
        (numbered (refused_enumerator (site_of here.now) (Some definition.now.full)) thing (enumerators_of definition.now.item))) }
{
    let enumerators = enumerators_of(definition);
    let [_, ..] = enumerators else {
        return Ok(());
    };
    let full = Some(definition.full(alloc)?);
    let inside = here.names.place(here.file, &full);
    check_enumerators(alloc, best, here.consts, &inside, thing, enumerators)
}

/// Tests the enumerators of definitions, the first of which is the thing of this number.
fn check_all_enumerators(
    alloc: Global,
    best: &mut Option<Refusal>,
    here: &Here<'_>,
    first: usize,
    definitions: &[DefinitionView<'_>],
) -> Result<(), AllocError>
    ensures { OnOk result (best.new ≡ best_of best.old (refused_enumerators (site_of here.now) first definitions.now)) }
{
    let mut thing = first;
    for definition in definitions {
        check_enumerators_of(alloc, best, here, thing, definition)?;
        thing = behind(thing, enumerators_of(definition).len())?;
    }
    Ok(())
}

/// Tests a file, whose things stand here.
pub fn check_file(
    alloc: Global,
    best: &mut Option<Refusal>,
    here: &Here<'_>,
    file: &NamedFile,
    things: &FileThings,
) -> Result<(), AllocError>
    ensures { OnOk result (best.new ≡ best_of best.old (refused_things (site_of here.now) file.now things.now)) }
{
    let definitions = definitions(alloc, &file.tree)?;
    check_definitions(
        alloc,
        best,
        here,
        things.definitions,
        definitions.as_slice(),
    )?;
    check_all_enumerators(
        alloc,
        best,
        here,
        things.enumerators,
        definitions.as_slice(),
    )
}
