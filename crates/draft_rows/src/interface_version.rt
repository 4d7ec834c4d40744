//! The versions of interfaces.

ghost use Rattle.std.specs.Prelude.{◌≡◌, max, map, IfOk};
ghost use Rattle.std.specs.List.{fold};
ghost use Rattle.draft_rows.specs.InterfaceVersions.{latest, latest_parameter, latest_of_method, interface_version};
ghost use Rattle.kind_scope.specs.Views.{member_view, scope_view};

use crate::counts::methods_in;
use kind_scope::{MemberView, ScopeView, methods, parameters, version_of};
use mojom_ast::{InterfaceMember, Method, Parameter};
use std::alloc::{AllocError, Global};

/// The greatest version since which one of these members is there; 0 where there is none.
fn latest(
    alloc: Global,
    scope: &ScopeView<'_>,
    members: &[MemberView<'_>],
) -> Result<u32, AllocError>
    ensures { IfOk result (λ version. version ≡ latest (scope_view scope.now) (map member_view members.now)) }
{
    let mut found: u32 = 0;
    for member in members {
        let version = version_of(alloc, scope, member)?;
        found = found.max(version);
    }
    Ok(found)
}

/// The greatest version since which one of these parameters is there; 0 where there is none.
fn latest_parameter(
    alloc: Global,
    scope: &ScopeView<'_>,
    list: &[Parameter],
) -> Result<u32, AllocError>
    ensures { IfOk result (λ version. version ≡ latest_parameter (scope_view scope.now) list.now) }
{
    let members = parameters(alloc, list)?;
    latest(alloc, scope, members.as_slice())
}

/// The greatest version since which one of the parameters of a method is there, those of its response
/// among them.
fn latest_of_method(
    alloc: Global,
    scope: &ScopeView<'_>,
    method: &Method,
) -> Result<u32, AllocError>
    ensures { IfOk result (λ version. version ≡ latest_of_method (scope_view scope.now) method.now) }
{
    let request = latest_parameter(alloc, scope, method.request.as_slice())?;
    let response = match &method.response {
        Some(list) => latest_parameter(alloc, scope, list.as_slice())?,
        None => 0,
    };
    Ok(request.max(response))
}

/// The greatest version since which one of the parameters of these methods is there.
fn latest_of_methods(
    alloc: Global,
    scope: &ScopeView<'_>,
    list: &[&Method],
) -> Result<u32, AllocError>
    ensures { IfOk result (λ version. version ≡ fold max 0 (map (latest_of_method (scope_view scope.now)) (map (λ m. m.now) list.now))) }
{
    let mut found: u32 = 0;
    for method in list {
        let version = latest_of_method(alloc, scope, method)?;
        found = found.max(version);
    }
    Ok(found)
}

/// The version of an interface of these members: the greatest since which one of its methods or of their
/// parameters is there; 0 where nothing else is said.
pub fn interface_version(
    alloc: Global,
    scope: &ScopeView<'_>,
    members: &[InterfaceMember],
) -> Result<u32, AllocError>
    ensures { IfOk result (λ version. version ≡ interface_version (scope_view scope.now) members.now) }
{
    let ones = methods(alloc, members)?;
    let own = latest(alloc, scope, ones.as_slice())?;
    let list = methods_in(alloc, members)?;
    let behind = latest_of_methods(alloc, scope, list.as_slice())?;
    Ok(own.max(behind))
}
