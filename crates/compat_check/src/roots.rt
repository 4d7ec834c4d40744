//! The stable definitions of an older schema, and those of a newer one that they are looked for in.

ghost use Rattle.std.specs.Prelude.{◌≡◌, ◌++◌, [], ◌∷◌, map, IfOk, OnOk};
ghost use Rattle.std.specs.List.{flat_map};
ghost use Rattle.compat_model.specs.Members.{first_found};
ghost use Rattle.compat_model.specs.Pairs.{pair_reason};
ghost use Rattle.compat_model.specs.Verdicts.{is_stable, name_of, namesakes as namesakes_of, root_of, roots, paired, root_pairs, partner_reason, root_reason};
ghost use Rattle.compat_check.specs.steps.Named.{IsNamed};
ghost use Rattle.compat_check.specs.steps.Roots.{namesake, root_if_stable};

use crate::named_schema::{NamedSchema, partner_of};
use breaking_changes::{find_interface, first_reason};
use compat_model::{Change, Pair, Reason, Root};
use mj_base::{FullName, Text};
use mj_schema::{DefinitionRow, InterfaceRow, RowSort, Schema};
use schema_rows::{find_enum, find_struct, find_union};
use std::alloc::{AllocError, Global};

/// Whether a definition is stable.
fn is_stable(schema: &Schema, sort: RowSort, number: u32) -> bool
    ensures { result ≡ is_stable schema.now sort number }
{
    match sort {
        RowSort::Struct => match find_struct(schema, number) {
            Some(row) => row.stable,
            None => false,
        },
        RowSort::Union => match find_union(schema, number) {
            Some(row) => row.stable,
            None => false,
        },
        RowSort::Enum => match find_enum(schema, number) {
            Some(row) => row.stable,
            None => false,
        },
        RowSort::Interface => match find_interface(schema, number) {
            Some(row) => row.stable,
            None => false,
        },
        RowSort::Const => false,
    }
}

/// The name of what isn't there.
fn no_name(alloc: Global) -> Result<FullName, AllocError>
    ensures { IfOk result (λ name. name ≡ []) }
{
    let name = Text::from_str(alloc, "")?;
    Ok(FullName::own(name))
}

/// The full name of a definition.
fn name_of(
    alloc: Global,
    schema: &Schema,
    sort: RowSort,
    number: u32,
) -> Result<FullName, AllocError>
    ensures { IfOk result (λ name. name ≡ name_of schema.now sort number) }
{
    match sort {
        RowSort::Struct => match find_struct(schema, number) {
            Some(row) => row.name.share(alloc),
            None => no_name(alloc),
        },
        RowSort::Union => match find_union(schema, number) {
            Some(row) => row.name.share(alloc),
            None => no_name(alloc),
        },
        RowSort::Enum => match find_enum(schema, number) {
            Some(row) => row.name.share(alloc),
            None => no_name(alloc),
        },
        RowSort::Interface => match find_interface(schema, number) {
            Some(row) => row.name.share(alloc),
            None => no_name(alloc),
        },
        RowSort::Const => no_name(alloc),
    }
}

/// The number of the newer schema's interface of an interface's full name.
fn namesake(
    alloc: Global,
    new: &NamedSchema<'_>,
    row: &InterfaceRow,
) -> Result<Option<u32>, AllocError>
    requires { IsNamed new.now }
    ensures { IfOk result (λ number. number ≡ namesake new.now.schema.now row.now) }
{
    let number = partner_of(alloc, new, RowSort::Interface, &row.name)?;
    Ok(number)
}

/// The numbers of the newer schema's interfaces of the full names of these.
fn all_namesakes(
    alloc: Global,
    new: &NamedSchema<'_>,
    interfaces: &[InterfaceRow],
) -> Result<Vec<Option<u32>>, AllocError>
    requires { IsNamed new.now }
    ensures { IfOk result (λ made. made.items ≡ map (namesake new.now.schema.now) interfaces.now) }
{
    let mut made = Vec::new(alloc);
    for row in interfaces {
        made.push(namesake(alloc, new, row)?)?;
    }
    Ok(made)
}

/// For each interface of the older schema the number of the newer one's of that name.
pub(crate) fn namesakes(
    alloc: Global,
    old: &Schema,
    new: &NamedSchema<'_>,
) -> Result<Vec<Option<u32>>, AllocError>
    requires { IsNamed new.now }
    ensures { IfOk result (λ made. made.items ≡ namesakes_of old.now new.now.schema.now) }
{
    let made = all_namesakes(alloc, new, old.interfaces.as_slice())?;
    Ok(made)
}

/// A definition, with the number of the newer schema's of its sort and full name.
fn root_of(
    alloc: Global,
    old: &Schema,
    new: &NamedSchema<'_>,
    definition: DefinitionRow,
) -> Result<Root, AllocError>
    requires { IsNamed new.now }
    ensures { IfOk result (λ made. made ≡ root_of old.now new.now.schema.now definition) }
{
    let name = name_of(alloc, old, definition.sort, definition.number)?;
    let partner = partner_of(alloc, new, definition.sort, &name)?;
    Ok(Root {
        definition,
        partner,
    })
}

/// Adds a definition that is stable.
fn push_stable(
    alloc: Global,
    out: &mut Vec<Root>,
    old: &Schema,
    new: &NamedSchema<'_>,
    definition: DefinitionRow,
) -> Result<(), AllocError>
    requires { IsNamed new.now }
    ensures { OnOk result (out.new.items ≡ out.old.items ++ root_if_stable old.now new.now.schema.now definition) }
{
    if is_stable(old, definition.sort, definition.number) {
        out.push(root_of(alloc, old, new, definition)?)?;
    }
    Ok(())
}

/// Adds those of definitions that are stable.
fn push_each(
    alloc: Global,
    out: &mut Vec<Root>,
    old: &Schema,
    new: &NamedSchema<'_>,
    definitions: &[DefinitionRow],
) -> Result<(), AllocError>
    requires { IsNamed new.now }
    ensures { OnOk result (out.new.items ≡ out.old.items ++ flat_map (root_if_stable old.now new.now.schema.now) definitions.now) }
{
    for definition in definitions {
        push_stable(alloc, out, old, new, *definition)?;
    }
    Ok(())
}

/// The stable definitions of the older schema, in the order of the file.
pub(crate) fn roots(
    alloc: Global,
    old: &Schema,
    new: &NamedSchema<'_>,
) -> Result<Vec<Root>, AllocError>
    requires { IsNamed new.now }
    ensures { IfOk result (λ made. made.items ≡ roots old.now new.now.schema.now) }
{
    let mut made = Vec::new(alloc);
    push_each(alloc, &mut made, old, new, old.order.as_slice())?;
    Ok(made)
}

/// Adds a pair.
fn push(out: &mut Vec<Pair>, pair: Pair) -> Result<(), AllocError>
    ensures { OnOk result (out.new.items ≡ out.old.items ++ (pair ∷ [])) }
{
    out.push(pair)?;
    Ok(())
}

/// Adds two definitions of one sort.
fn push_paired(out: &mut Vec<Pair>, sort: RowSort, i: u32, j: u32) -> Result<(), AllocError>
    ensures { OnOk result (out.new.items ≡ out.old.items ++ paired sort i j) }
{
    match sort {
        RowSort::Struct => push(out, Pair::Structs(i, j)),
        RowSort::Union => push(out, Pair::Unions(i, j)),
        RowSort::Enum => push(out, Pair::Enums(i, j)),
        RowSort::Interface => push(out, Pair::Interfaces(i, j)),
        RowSort::Const => Ok(()),
    }
}

/// Adds the pair of a root, where it has one.
fn push_root(out: &mut Vec<Pair>, root: Root) -> Result<(), AllocError>
    ensures { OnOk result (out.new.items ≡ out.old.items ++ root_pairs root) }
{
    match root.partner {
        Some(partner) => push_paired(out, root.definition.sort, root.definition.number, partner),
        None => Ok(()),
    }
}

/// Adds the pairs of roots.
fn push_roots(out: &mut Vec<Pair>, roots: &[Root]) -> Result<(), AllocError>
    ensures { OnOk result (out.new.items ≡ out.old.items ++ flat_map root_pairs roots.now) }
{
    for root in roots {
        push_root(out, *root)?;
    }
    Ok(())
}

/// The pairs of roots, in order.
pub(crate) fn all_root_pairs(alloc: Global, roots: &[Root]) -> Result<Vec<Pair>, AllocError>
    ensures { IfOk result (λ made. made.items ≡ flat_map root_pairs roots.now) }
{
    let mut made = Vec::new(alloc);
    push_roots(&mut made, roots)?;
    Ok(made)
}

/// A change of a definition of the older schema as such.
fn reason_by(
    alloc: Global,
    old: &Schema,
    definition: DefinitionRow,
    change: Change,
) -> Result<Reason, AllocError>
    ensures value { IfOk result (λ made. made.change ≡ change) }
    ensures name { IfOk result (λ made. made.name ≡ name_of old.now definition.sort definition.number) }
{
    let name = name_of(alloc, old, definition.sort, definition.number)?;
    Ok(Reason { change, name })
}

/// Why the pair of two definitions of one sort is broken, where it is.
fn paired_reason(
    alloc: Global,
    old: &Schema,
    new: &Schema,
    namesakes: &[Option<u32>],
    definition: DefinitionRow,
    partner: u32,
) -> Result<Option<Reason>, AllocError>
    requires { namesakes.now ≡ namesakes_of old.now new.now }
    ensures { IfOk result (λ reason. reason ≡ first_found (pair_reason old.now new.now (namesakes_of old.now new.now))
        (paired definition.sort definition.number partner)) }
{
    let mut pairs = Vec::new(alloc);
    push_paired(&mut pairs, definition.sort, definition.number, partner)?;
    let reason = first_reason(alloc, old, new, namesakes, pairs.as_slice())?;
    Ok(reason)
}

/// Why a definition with this partner is broken, where it is.
fn partner_reason(
    alloc: Global,
    old: &Schema,
    new: &Schema,
    namesakes: &[Option<u32>],
    definition: DefinitionRow,
    partner: Option<u32>,
) -> Result<Option<Reason>, AllocError>
    requires { namesakes.now ≡ namesakes_of old.now new.now }
    ensures { IfOk result (λ reason. reason ≡ partner_reason old.now new.now definition partner) }
{
    let Some(partner) = partner else {
        return Ok(Some(reason_by(alloc, old, definition, Change::Missing)?));
    };
    if !is_stable(new, definition.sort, partner) {
        return Ok(Some(reason_by(alloc, old, definition, Change::NotStable)?));
    }
    paired_reason(alloc, old, new, namesakes, definition, partner)
}

/// Why a root is broken, where it is.
fn root_reason(
    alloc: Global,
    old: &Schema,
    new: &Schema,
    namesakes: &[Option<u32>],
    root: Root,
) -> Result<Option<Reason>, AllocError>
    requires { namesakes.now ≡ namesakes_of old.now new.now }
    ensures { IfOk result (λ reason. reason ≡ root_reason old.now new.now root) }
{
    partner_reason(alloc, old, new, namesakes, root.definition, root.partner)
}

/// The first reason of roots.
pub(crate) fn first_root_reason(
    alloc: Global,
    old: &Schema,
    new: &Schema,
    namesakes: &[Option<u32>],
    roots: &[Root],
) -> Result<Option<Reason>, AllocError>
    requires { namesakes.now ≡ namesakes_of old.now new.now }
    ensures { IfOk result (λ reason. reason ≡ first_found (root_reason old.now new.now) roots.now) }
{
    for root in roots {
        if let Some(reason) = root_reason(alloc, old, new, namesakes, *root)? {
            return Ok(Some(reason));
        }
    }
    Ok(None)
}
