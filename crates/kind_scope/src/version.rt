//! The versions of members.

ghost use Rattle.std.specs.Prelude.{◌≡◌, IfOk};
ghost use Rattle.std.specs.Option.{option_copied};
ghost use Rattle.const_meanings.specs.Known.{known_view};
ghost use Rattle.kind_scope.specs.Views.{member_view, scope_view};
ghost use Rattle.kind_scope.specs.Versions.{held_whole, version_of_known, min_version, version_of};

use crate::member::MemberView;
use crate::scope::{ScopeView, known_in};
use const_meanings::KnownView;
use mojom_ast::{Attribute, Value};
use std::alloc::{AllocError, Global};

/// A number as a version: what is below 0 counts as 0, and what is above 32 bits as the greatest.
fn held_whole(number: i128) -> u32
    ensures { result ≡ held_whole number }
{
    number.clamp(0, 0xFFFF_FFFF) as u32
}

/// The version that a value says.
fn version_of_known(known: KnownView<'_>) -> u32
    ensures { result ≡ version_of_known (known_view known.entry) }
{
    match known {
        KnownView::Number(number) => held_whole(number),
        KnownView::Text(_) | KnownView::Bool(_) | KnownView::Float => 0,
    }
}

/// The value of the first `MinVersion`; none where there is none.
fn min_version(attributes: &[Attribute]) -> Option<&Value>
    ensures { option_copied result ≡ min_version attributes.now }
{
    for attribute in attributes {
        if attribute.name.text.as_str() == "MinVersion" {
            return attribute.value.as_ref();
        }
    }
    None
}

/// The version since which a member is there.
pub fn version_of(
    alloc: Global,
    scope: &ScopeView<'_>,
    member: &MemberView<'_>,
) -> Result<u32, AllocError>
    ensures { IfOk result (λ version. version ≡ version_of (scope_view scope.now) (member_view member.now)) }
{
    let Some(value) = min_version(member.attributes) else {
        return Ok(0);
    };
    match known_in(alloc, scope, value)? {
        Some(known) => Ok(version_of_known(known)),
        None => Ok(0),
    }
}
