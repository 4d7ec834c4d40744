//! What the names of types mean, by sorts.

ghost use Rattle.std.specs.Prelude.{◌≡◌};
ghost use Rattle.kind_refusals.specs.TypeRefusals.{is_float_basic, is_text_basic, is_number_basic, is_enum, is_struct_or_union, is_float, is_text, is_number};
ghost use Rattle.kind_refusals.specs.TypeRefusals.{is_object};
ghost use Rattle.kind_scope.specs.Views.{scope_view};

use kind_scope::{Meant, ScopeView};
use module_resolver::{DefinitionSort, Target};
use mojom_files::Basic;

/// Whether this is float or double.
fn is_float_basic(basic: Basic) -> bool
    ensures { result ≡ is_float_basic basic }
{
    matches!(basic, Basic::Float | Basic::Double)
}

/// Whether this is string.
fn is_text_basic(basic: Basic) -> bool
    ensures { result ≡ is_text_basic basic }
{
    matches!(basic, Basic::Text)
}

/// Whether this is bool or an integer.
fn is_number_basic(basic: Basic) -> bool
    ensures { result ≡ is_number_basic basic }
{
    !(is_float_basic(basic) || is_text_basic(basic))
}

/// Whether this is an enum.
fn is_enum(sort: Option<DefinitionSort>) -> bool
    ensures { result ≡ is_enum sort }
{
    matches!(sort, Some(DefinitionSort::Enum))
}

/// Whether this is a struct or a union.
fn is_struct_or_union(sort: Option<DefinitionSort>) -> bool
    ensures { result ≡ is_struct_or_union sort }
{
    matches!(sort, Some(DefinitionSort::Struct | DefinitionSort::Union))
}

/// Whether this is float or double.
pub fn is_float(meant: Option<Meant>) -> bool
    ensures { result ≡ is_float meant }
{
    match meant {
        Some(Meant::Basic(basic)) => is_float_basic(basic),
        _ => false,
    }
}

/// Whether this is string.
pub fn is_text(meant: Option<Meant>) -> bool
    ensures { result ≡ is_text meant }
{
    match meant {
        Some(Meant::Basic(basic)) => is_text_basic(basic),
        _ => false,
    }
}

/// Whether this is bool, an integer or an enum.
pub fn is_number(scope: &ScopeView<'_>, meant: Option<Meant>) -> bool
    ensures { result ≡ is_number (scope_view scope.now) meant }
{
    match meant {
        Some(Meant::Basic(basic)) => is_number_basic(basic),
        Some(Meant::Target(target)) => is_enum(scope.place.sort_of(target)),
        None => false,
    }
}

/// Whether this is string, a struct or a union.
pub fn is_object(scope: &ScopeView<'_>, meant: Option<Meant>) -> bool
    ensures { result ≡ is_object (scope_view scope.now) meant }
{
    match meant {
        Some(Meant::Basic(basic)) => is_text_basic(basic),
        Some(Meant::Target(target)) => is_struct_or_union(scope.place.sort_of(target)),
        None => false,
    }
}
