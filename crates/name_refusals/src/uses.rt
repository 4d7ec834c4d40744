//! The names that types, values and attributes use.

ghost use Rattle.std.specs.Prelude.{◌≡◌, OnOk};
ghost use Rattle.mojom_ast.specs.TypeTrees.{base_view};
ghost use Rattle.mojom_files.specs.Refusals.{best_of};
ghost use Rattle.name_refusals.specs.Uses.{Use, is_basic, is_min_version, uses_in_type, uses_in_value, uses_in_option, uses_in_attribute, uses_in_attributes};
ghost use Rattle.name_refusals.specs.NameRefusals.{place_of, fits_sort, fits, refused_use, refused_uses};

use module_resolver::{DefinitionSort, Place, Target};
use mojom_ast::{Attribute, BaseNode, Identifier, Type, Value};
use mojom_files::{Basic, Cause, NamedCause, Refusal, dotted, keep};
use std::alloc::{AllocError, Global};

/// What a name has to mean where it stands.
#[derive(Clone, Copy)]
pub enum Wanted {
    /// A struct, a union or an enum.
    Kind,
    Interface,
    /// A constant or an enumerator.
    Value,
}

/// Where a name stands, in bytes from 0.
fn place_of(parts: &[Identifier]) -> u64
    ensures { result ≡ place_of parts.now }
{
    match parts {
        [first, ..] => first.span.start,
        [] => 0,
    }
}

/// Whether a definition of this sort can stand where this is wanted.
fn fits_sort(wanted: Wanted, sort: DefinitionSort) -> bool
    ensures { result ≡ fits_sort wanted sort }
{
    match wanted {
        Wanted::Kind => matches!(
            sort,
            DefinitionSort::Struct | DefinitionSort::Union | DefinitionSort::Enum
        ),
        Wanted::Interface => matches!(sort, DefinitionSort::Interface),
        Wanted::Value => matches!(sort, DefinitionSort::Const),
    }
}

/// Whether what is meant can stand where this is wanted.
fn fits(place: &Place<'_>, wanted: Wanted, target: Target) -> bool
    ensures { result ≡ fits place.now.files wanted target }
{
    match target {
        Target::Definition { .. } => match place.sort_of(target) {
            Some(sort) => fits_sort(wanted, sort),
            None => false,
        },
        Target::Enumerator { .. } => matches!(wanted, Wanted::Value),
    }
}

/// Refuses a name that nothing has, or that means what can't stand there, and keeps the first refusal.
fn check_use(
    alloc: Global,
    place: &Place<'_>,
    parts: &[Identifier],
    wanted: Wanted,
    best: &mut Option<Refusal>,
) -> Result<(), AllocError>
    ensures { let used : Use = record { enclosing = place.now.enclosing; parts = parts.now; wanted = wanted } in
        OnOk result (best.new ≡ best_of best.old (refused_use place.now.files place.now.file used)) }
{
    let name = dotted(alloc, parts)?;
    let at = place_of(parts);
    let file = place.file();
    match place.look_up(name.as_str()) {
        Some(target) => {
            if !fits(place, wanted, target) {
                let cause = Cause::named(NamedCause::WrongSort, name);
                keep(best, Refusal { file, at, cause });
            }
        }
        None => {
            let cause = Cause::named(NamedCause::UnknownName, name);
            keep(best, Refusal { file, at, cause });
        }
    }
    Ok(())
}

/// Whether a name is that of a basic kind.
fn is_basic(parts: &[Identifier]) -> bool
    ensures { result ≡ is_basic parts.now }
{
    match parts {
        [part] => Basic::of_name(part.text.as_str()).is_some(),
        _ => false,
    }
}

/// Refuses names of a type without its `?`, as `check_use` does.
#[cycle(types)]
fn check_base(
    alloc: Global,
    place: &Place<'_>,
    base: &BaseNode,
    best: &mut Option<Refusal>,
) -> Result<(), AllocError>
    ensures { OnOk result (best.new ≡ best_of best.old (refused_uses place.now.files place.now.file (uses_in_type place.now.enclosing (base_view base.now)))) }
{
    match base {
        BaseNode::Name(name) => {
            let parts = name.parts.as_slice();
            if is_basic(parts) {
                return Ok(());
            }
            check_use(alloc, place, parts, Wanted::Kind, best)
        }
        BaseNode::Array { of, .. } => check_base(alloc, place, &of.base, best),
        BaseNode::Map { key, value } => {
            check_base(alloc, place, &key.base, best)?;
            check_base(alloc, place, &value.base, best)
        }
        BaseNode::Handle(_) => Ok(()),
        BaseNode::Pending { interface, .. } => {
            let parts = interface.parts.as_slice();
            check_use(alloc, place, parts, Wanted::Interface, best)
        }
    }
}

/// Refuses names of a type, as `check_use` does.
pub fn check_type(
    alloc: Global,
    place: &Place<'_>,
    kind: &Type,
    best: &mut Option<Refusal>,
) -> Result<(), AllocError>
    ensures { OnOk result (best.new ≡ best_of best.old (refused_uses place.now.files place.now.file (uses_in_type place.now.enclosing kind.now.base))) }
{
    check_base(alloc, place, &kind.node().base, best)
}

/// Refuses the name that a value is, as `check_use` does.
pub fn check_value(
    alloc: Global,
    place: &Place<'_>,
    value: &Value,
    best: &mut Option<Refusal>,
) -> Result<(), AllocError>
    ensures { OnOk result (best.new ≡ best_of best.old (refused_uses place.now.files place.now.file (uses_in_value place.now.enclosing value.now))) }
{
    match value {
        Value::Name(name) => {
            let parts = name.parts.as_slice();
            check_use(alloc, place, parts, Wanted::Value, best)
        }
        Value::String(_) | Value::Bool { .. } | Value::Number { .. } => Ok(()),
    }
}

/// Refuses the name that a value is where there is a value, as `check_use` does.
pub fn check_option(
    alloc: Global,
    place: &Place<'_>,
    value: &Option<Value>,
    best: &mut Option<Refusal>,
) -> Result<(), AllocError>
    ensures { OnOk result (best.new ≡ best_of best.old (refused_uses place.now.files place.now.file (uses_in_option place.now.enclosing value.now))) }
{
    match value {
        Some(value) => check_value(alloc, place, value, best),
        None => Ok(()),
    }
}

/// Whether the attribute says since which version its member is there.
fn is_min_version(attribute: &Attribute) -> bool
    ensures { result ≡ is_min_version attribute.now }
{
    attribute.name.text.as_str() == "MinVersion"
}

/// Refuses the name that is the value of `MinVersion`, as `check_use` does.
fn check_attribute(
    alloc: Global,
    place: &Place<'_>,
    attribute: &Attribute,
    best: &mut Option<Refusal>,
) -> Result<(), AllocError>
    ensures { OnOk result (best.new ≡ best_of best.old (refused_uses place.now.files place.now.file (uses_in_attribute place.now.enclosing attribute.now))) }
{
    if is_min_version(attribute) {
        check_option(alloc, place, &attribute.value, best)
    } else {
        Ok(())
    }
}

/// Refuses the names that are values of `MinVersion`, as `check_use` does.
pub fn check_attributes(
    alloc: Global,
    place: &Place<'_>,
    attributes: &[Attribute],
    best: &mut Option<Refusal>,
) -> Result<(), AllocError>
    ensures { OnOk result (best.new ≡ best_of best.old (refused_uses place.now.files place.now.file (uses_in_attributes place.now.enclosing attributes.now))) }
{
    for attribute in attributes {
        check_attribute(alloc, place, attribute, best)?;
    }
    Ok(())
}
