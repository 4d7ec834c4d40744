//! The values of constants and enumerators.

ghost use Rattle.std.specs.Prelude.{◌≡◌, ◌++◌, OnOk};
ghost use Rattle.std.specs.Option.{option_map, option_map_or};
ghost use Rattle.mojom_files.specs.Refusals.{best_of};
ghost use Rattle.const_meanings.specs.Known.{known_view};
ghost use Rattle.const_eval.specs.Kinds.{basic_of_base};
ghost use Rattle.const_eval.specs.Refused.{place_of_value, refused_circle, refused_const_as, refused_const_value, refused_const};
ghost use Rattle.const_eval.specs.steps.Views.{site_at};
ghost use Rattle.const_eval.specs.Refused.{refused_known_enumerator, refused_enumerator};

use crate::consts::Consts;
use crate::kinds::{check_known, check_value, refuse_literal};
use crate::lengths::check_lengths;
use crate::places::place_of_value;
use crate::trees::basic_of_base;
use crate::versions::check_versions;
use const_meanings::KnownView;
use mj_base::Text;
use module_resolver::Place;
use mojom_ast::{Const, Enumerator, Identifier};
use mojom_files::{Basic, Cause, NamedCause, Refusal, keep};
use std::alloc::{AllocError, Global};

/// Tests whether the thing of this number and name needs itself.
fn check_circle(
    alloc: Global,
    best: &mut Option<Refusal>,
    consts: &Consts,
    place: &Place<'_>,
    thing: usize,
    name: &Identifier,
) -> Result<(), AllocError>
    ensures { OnOk result (best.new ≡ best_of best.old (refused_circle (site_at consts.now place.now) thing name.now)) }
{
    if !consts.is_circular(thing) {
        return Ok(());
    }
    let text = Text::from_str(alloc, name.text.as_str())?;
    let cause = Cause::named(NamedCause::CircularConst, text);
    keep(
        best,
        Refusal {
            file: place.file(),
            at: name.span.start,
            cause,
        },
    );
    Ok(())
}

/// Tests a constant by its kind, and where that is a basic one, but not `float` or `double`, by its
/// value, if it has one.
fn check_const_as(
    alloc: Global,
    best: &mut Option<Refusal>,
    file: u32,
    constant: &Const,
    known: Option<KnownView<'_>>,
) -> Result<(), AllocError>
    ensures { OnOk result (best.new ≡ best_of best.old (refused_const_as file constant.now.name
        (place_of_value constant.now.value) (basic_of_base constant.now.kind.base) (option_map known_view known.entry))) }
{
    match basic_of_base(&constant.kind.node().base) {
        Some(Basic::Float | Basic::Double) => Ok(()),
        Some(kind) => {
            let at = place_of_value(&constant.value);
            check_known(alloc, best, file, &constant.name, at, kind, known)
        }
        None => refuse_literal(alloc, best, file, &constant.name),
    }
}

/// Tests the kind of the constant of this number, and its value, where it has one.
fn check_const_value(
    alloc: Global,
    best: &mut Option<Refusal>,
    consts: &Consts,
    place: &Place<'_>,
    thing: usize,
    constant: &Const,
) -> Result<(), AllocError>
    ensures { OnOk result (best.new ≡ best_of best.old (refused_const_value (site_at consts.now place.now) thing constant.now)) }
{
    let known = consts.value_at(thing);
    check_const_as(alloc, best, place.file(), constant, known)
}

/// Tests the constant of this number.
pub fn check_const(
    alloc: Global,
    best: &mut Option<Refusal>,
    consts: &Consts,
    place: &Place<'_>,
    thing: usize,
    constant: &Const,
) -> Result<(), AllocError>
    ensures { OnOk result (best.new ≡ best_of best.old (refused_const (site_at consts.now place.now) thing constant.now)) }
{
    check_circle(alloc, best, consts, place, thing, &constant.name)?;
    check_const_value(alloc, best, consts, place, thing, constant)?;
    check_lengths(best, place.file(), &constant.kind);
    Ok(())
}

/// Where the value of an enumerator stands: at its identifier where none is written.
fn place_of_enumerator(enumerator: &Enumerator) -> u64
    ensures { result ≡ option_map_or place_of_value enumerator.now.value enumerator.now.name.span.start }
{
    match &enumerator.value {
        Some(value) => place_of_value(value),
        None => enumerator.name.span.start,
    }
}

/// Tests the value of the enumerator of this number, where it has one.
fn check_known_enumerator(
    alloc: Global,
    best: &mut Option<Refusal>,
    consts: &Consts,
    place: &Place<'_>,
    thing: usize,
    enumerator: &Enumerator,
) -> Result<(), AllocError>
    ensures { OnOk result (best.new ≡ best_of best.old (refused_known_enumerator (site_at consts.now place.now) thing enumerator.now)) }
{
    match consts.value_at(thing) {
        Some(value) => {
            let at = place_of_enumerator(enumerator);
            let name = &enumerator.name;
            check_value(alloc, best, place.file(), name, at, Basic::Int32, value)
        }
        None => Ok(()),
    }
}

/// Tests the enumerator of this number, within the enum of this full name.
pub fn check_enumerator(
    alloc: Global,
    best: &mut Option<Refusal>,
    consts: &Consts,
    place: &Place<'_>,
    thing: usize,
    enumerator: &Enumerator,
) -> Result<(), AllocError>
    ensures { OnOk result (best.new ≡ best_of best.old (refused_enumerator (site_at consts.now place.now) place.now.enclosing thing enumerator.now)) }
{
    check_circle(alloc, best, consts, place, thing, &enumerator.name)?;
    check_known_enumerator(alloc, best, consts, place, thing, enumerator)?;
    let attributes = enumerator.attributes.as_slice();
    check_versions(alloc, best, consts, place, &enumerator.name, attributes)
}
