//! The values of `MinVersion`.

ghost use Rattle.std.specs.Prelude.{◌≡◌, OnOk};
ghost use Rattle.mojom_files.specs.Refusals.{best_of};
ghost use Rattle.name_refusals.specs.NameRefusals.{place_of};
ghost use Rattle.name_refusals.specs.Uses.{is_min_version};
ghost use Rattle.const_eval.specs.Refused.{place_of_value, refused_version_value, refused_version, refused_versions};
ghost use Rattle.const_eval.specs.steps.Views.{site_at};

use crate::consts::Consts;
use crate::kinds::{check_known, refuse_literal};
use crate::places::place_of_value;
use module_resolver::Place;
use mojom_ast::{Attribute, Identifier, Value};
use mojom_files::{Basic, Refusal};
use std::alloc::{AllocError, Global};

/// Whether this is the attribute that says since which version its member is there.
fn is_min_version(attribute: &Attribute) -> bool
    ensures { result ≡ is_min_version attribute.now }
{
    attribute.name.text.as_str() == "MinVersion"
}

/// Tests the value of a `MinVersion` before what has this name.
fn check_version_value(
    alloc: Global,
    best: &mut Option<Refusal>,
    consts: &Consts,
    place: &Place<'_>,
    name: &Identifier,
    value: &Option<Value>,
) -> Result<(), AllocError>
    ensures { OnOk result (best.new ≡ best_of best.old (refused_version_value (site_at consts.now place.now) place.now.enclosing name.now value.now)) }
{
    let Some(value) = value else {
        return refuse_literal(alloc, best, place.file(), name);
    };
    let known = consts.value_of(alloc, place, value)?;
    let at = place_of_value(value);
    check_known(alloc, best, place.file(), name, at, Basic::Uint32, known)
}

/// Tests an attribute before what has this name.
fn check_version(
    alloc: Global,
    best: &mut Option<Refusal>,
    consts: &Consts,
    place: &Place<'_>,
    name: &Identifier,
    attribute: &Attribute,
) -> Result<(), AllocError>
    ensures { OnOk result (best.new ≡ best_of best.old (refused_version (site_at consts.now place.now) place.now.enclosing name.now attribute.now)) }
{
    if is_min_version(attribute) {
        check_version_value(alloc, best, consts, place, name, &attribute.value)
    } else {
        Ok(())
    }
}

/// Tests the attributes before what has this name.
pub fn check_versions(
    alloc: Global,
    best: &mut Option<Refusal>,
    consts: &Consts,
    place: &Place<'_>,
    name: &Identifier,
    attributes: &[Attribute],
) -> Result<(), AllocError>
    ensures { OnOk result (best.new ≡ best_of best.old (refused_versions (site_at consts.now place.now) place.now.enclosing name.now attributes.now)) }
{
    for attribute in attributes {
        check_version(alloc, best, consts, place, name, attribute)?;
    }
    Ok(())
}
