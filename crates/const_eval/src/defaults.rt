//! The defaults of fields.

ghost use Rattle.std.specs.Prelude.{◌≡◌, IfOk, OnOk, Some};
ghost use Rattle.mojom_ast.specs.TypeTrees.{base_view};
ghost use Rattle.mojom_files.specs.Refusals.{best_of};
ghost use Rattle.const_eval.specs.Refused.{meant_by_base, meant_by_value, is_enumerator_of, refused_enum_default};
ghost use Rattle.const_eval.specs.Refused.{is_string, refused_default_by, refused_default};
ghost use Rattle.const_eval.specs.steps.Views.{site_at};

use crate::consts::Consts;
use crate::file_things::{FileThings, owner_of};
use crate::kinds::{check_known, refuse_literal};
use crate::places::place_of_value;
use crate::trees::basic_of_base;
use module_resolver::{Place, Target};
use mojom_ast::{BaseNode, Field, Value};
use mojom_files::{Basic, Refusal, dotted};
use std::alloc::{AllocError, Global};

/// What the name of a type means; none of a type that is no name.
fn meant_by_base(
    alloc: Global,
    _consts: &Consts,
    place: &Place<'_>,
    base: &BaseNode,
) -> Result<Option<Target>, AllocError>
    ensures { IfOk result (λ target. target ≡ meant_by_base (site_at _consts.now place.now) place.now.enclosing (base_view base.now)) }
{
    match base {
        BaseNode::Name(name) => {
            let text = dotted(alloc, name.parts.as_slice())?;
            Ok(place.look_up(text.as_str()))
        }
        _ => Ok(None),
    }
}

/// What the name of a value means; none of a value that is no name.
fn meant_by_value(
    alloc: Global,
    _consts: &Consts,
    place: &Place<'_>,
    value: &Value,
) -> Result<Option<Target>, AllocError>
    ensures { IfOk result (λ target. target ≡ meant_by_value (site_at _consts.now place.now) place.now.enclosing value.now) }
{
    match value {
        Value::Name(name) => {
            let text = dotted(alloc, name.parts.as_slice())?;
            Ok(place.look_up(text.as_str()))
        }
        _ => Ok(None),
    }
}

/// Whether one name means an enum, and the other an enumerator of that very enum.
fn is_enumerator_of(things: &[FileThings], kind: Option<Target>, value: Option<Target>) -> bool
    ensures { result ≡ is_enumerator_of things.now kind value }
{
    match (kind, value) {
        (
            Some(Target::Definition { file, number }),
            Some(
                Target::Enumerator {
                    file: other,
                    number: enumerator,
                },
            ),
        ) => file == other && owner_of(things, other, enumerator) == Some(number),
        _ => false,
    }
}

/// Tests a default of a kind that isn't basic.
fn check_enum_default(
    alloc: Global,
    best: &mut Option<Refusal>,
    consts: &Consts,
    place: &Place<'_>,
    field: &Field,
    value: &Value,
) -> Result<(), AllocError>
    ensures { OnOk result (best.new ≡ best_of best.old (refused_enum_default (site_at consts.now place.now) place.now.enclosing field.now value.now)) }
{
    let kind = meant_by_base(alloc, consts, place, &field.kind.node().base)?;
    let meant = meant_by_value(alloc, consts, place, value)?;
    if is_enumerator_of(consts.files.as_slice(), kind, meant) {
        Ok(())
    } else {
        refuse_literal(alloc, best, place.file(), &field.name)
    }
}

/// Tests a default of this basic kind: `float` and `double` have none, and one of the others is tested
/// by its value, if it has one.
fn check_basic_default(
    alloc: Global,
    best: &mut Option<Refusal>,
    consts: &Consts,
    place: &Place<'_>,
    field: &Field,
    value: &Value,
    kind: Basic,
) -> Result<(), AllocError>
    ensures { OnOk result (best.new ≡ best_of best.old
        (refused_default_by (site_at consts.now place.now) place.now.enclosing field.now value.now (Some kind))) }
{
    match kind {
        Basic::Float | Basic::Double => refuse_literal(alloc, best, place.file(), &field.name),
        kind => {
            let known = consts.value_of(alloc, place, value)?;
            let at = place_of_value(value);
            check_known(alloc, best, place.file(), &field.name, at, kind, known)
        }
    }
}

/// Tests a default by the kind of its field: this basic kind, or none that is basic.
fn check_default_by(
    alloc: Global,
    best: &mut Option<Refusal>,
    consts: &Consts,
    place: &Place<'_>,
    field: &Field,
    value: &Value,
    kind: Option<Basic>,
) -> Result<(), AllocError>
    ensures { OnOk result (best.new ≡ best_of best.old (refused_default_by (site_at consts.now place.now) place.now.enclosing field.now value.now kind)) }
{
    match kind {
        Some(kind) => check_basic_default(alloc, best, consts, place, field, value, kind),
        None => check_enum_default(alloc, best, consts, place, field, value),
    }
}

/// Whether this is string.
fn is_string(kind: Option<Basic>) -> bool
    ensures { result ≡ is_string kind }
{
    matches!(kind, Some(Basic::Text))
}

/// Tests the default of a field, where it has one: of the kinds with `?` only `string` takes one.
pub fn check_default(
    alloc: Global,
    best: &mut Option<Refusal>,
    consts: &Consts,
    place: &Place<'_>,
    field: &Field,
) -> Result<(), AllocError>
    ensures { OnOk result (best.new ≡ best_of best.old (refused_default (site_at consts.now place.now) place.now.enclosing field.now field.now.default)) }
{
    let Some(value) = &field.default else {
        return Ok(());
    };
    let node = field.kind.node();
    let kind = basic_of_base(&node.base);
    if node.nullable && !is_string(kind) {
        refuse_literal(alloc, best, place.file(), &field.name)
    } else {
        check_default_by(alloc, best, consts, place, field, value, kind)
    }
}
