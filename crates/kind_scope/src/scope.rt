//! Where names stand.

ghost use Rattle.std.specs.Prelude.{◌≡◌, IfOk};
ghost use Rattle.std.specs.Option.{option_map};
ghost use Rattle.const_eval.specs.Kinds.{basic_of_parts};
ghost use Rattle.const_meanings.specs.Known.{known_view};
ghost use Rattle.kind_scope.specs.Scopes.{meant_in, known_in};
ghost use Rattle.kind_scope.specs.Views.{scope_view};

use crate::meant::Meant;
use const_eval::Consts;
use const_meanings::KnownView;
use module_resolver::Place;
use mojom_ast::{Identifier, Value};
use mojom_files::{Basic, dotted};
use std::alloc::{AllocError, Global};

/// Where names stand, and what constants mean. It is made once for all names that stand there.
#[derive(Drop)]
pub struct ScopeView<'a> {
    pub place: Place<'a>,
    pub consts: &'a Consts,
}

/// The basic kind of a type's name.
fn basic_of_parts(parts: &[Identifier]) -> Option<Basic>
    ensures { result ≡ basic_of_parts parts.now }
{
    match parts {
        [part] => Basic::of_name(part.text.as_str()),
        _ => None,
    }
}

/// What a type's name means; none exactly where it means nothing.
pub fn meant_in(
    alloc: Global,
    scope: &ScopeView<'_>,
    parts: &[Identifier],
) -> Result<Option<Meant>, AllocError>
    ensures { IfOk result (λ meant. meant ≡ meant_in (scope_view scope.now) parts.now) }
{
    if let Some(basic) = basic_of_parts(parts) {
        return Ok(Some(Meant::Basic(basic)));
    }
    let name = dotted(alloc, parts)?;
    match scope.place.look_up(name.as_str()) {
        Some(target) => Ok(Some(Meant::Target(target))),
        None => Ok(None),
    }
}

/// What a value is where it is written; none exactly for a name that has no value.
pub fn known_in<'a>(
    alloc: Global,
    scope: &'a ScopeView<'_>,
    value: &'a Value,
) -> Result<Option<KnownView<'a>>, AllocError>
    ensures { IfOk result (λ found. option_map known_view found ≡ known_in (scope_view scope.now) value.now) }
{
    scope.consts.value_of(alloc, &scope.place, value)
}
