//! What is refused in types.

ghost use Rattle.std.specs.Prelude.{◌≡◌, IfOk, OnOk};
ghost use Rattle.mojom_ast.specs.TypeTrees.{base_view};
ghost use Rattle.mojom_files.specs.Refusals.{best_of};
ghost use Rattle.kind_scope.specs.Views.{member_view, scope_view};
ghost use Rattle.kind_refusals.specs.TypeRefusals.{is_key, is_zero, refused_in_base, refused_in_type, refused_in_member};

use crate::meanings::{is_float, is_number, is_text};
use crate::refuse::refuse;
use kind_scope::{MemberView, ScopeView, meant_in};
use mojom_ast::{BaseNode, Identifier, Number, Type};
use mojom_files::{NamedCause, Refusal};
use std::alloc::{AllocError, Global};

/// Whether this is bool, an integer, an enum or string.
fn is_key(alloc: Global, scope: &ScopeView<'_>, base: &BaseNode) -> Result<bool, AllocError>
    ensures { IfOk result (λ answer. answer ≡ is_key (scope_view scope.now) (base_view base.now)) }
{
    match base {
        BaseNode::Name(name) => {
            let meant = meant_in(alloc, scope, name.parts.as_slice())?;
            Ok(is_number(scope, meant) || is_text(meant))
        }
        _ => Ok(false),
    }
}

/// Whether the length 0 is written.
fn is_zero(count: Option<Number>) -> bool
    ensures { result ≡ is_zero count }
{
    match count {
        Some(number) => number.value == 0,
        None => false,
    }
}

/// Notes what is refused in a type, which goes by the identifier of its member or its constant. A bool,
/// an integer or an enum may be null where this is the type of a `field` of a struct or of a parameter,
/// and a key with `?` is refused as such.
#[cycle(types)]
fn check_base(
    alloc: Global,
    best: &mut Option<Refusal>,
    scope: &ScopeView<'_>,
    member: &Identifier,
    field: bool,
    base: &BaseNode,
    nullable: bool,
) -> Result<(), AllocError>
    ensures { OnOk result (best.new ≡ best_of best.old (refused_in_base (scope_view scope.now) member.now field (base_view base.now) nullable)) }
{
    match base {
        BaseNode::Name(name) => {
            let meant = meant_in(alloc, scope, name.parts.as_slice())?;
            refuse(
                alloc,
                best,
                is_float(meant),
                scope,
                member,
                NamedCause::FloatField,
            )?;
            let is_bad = !field && (nullable && is_number(scope, meant));
            refuse(alloc, best, is_bad, scope, member, NamedCause::BadNullable)
        }
        BaseNode::Array { of, count } => {
            let cause = NamedCause::ZeroLengthArray;
            refuse(alloc, best, is_zero(*count), scope, member, cause)?;
            check_base(alloc, best, scope, member, false, &of.base, of.nullable)
        }
        BaseNode::Map { key, value } => {
            let is_bad = !is_key(alloc, scope, &key.base)?;
            refuse(alloc, best, is_bad, scope, member, NamedCause::BadMapKey)?;
            let cause = NamedCause::NullableKey;
            refuse(alloc, best, key.nullable, scope, member, cause)?;
            check_base(alloc, best, scope, member, true, &key.base, key.nullable)?;
            check_base(
                alloc,
                best,
                scope,
                member,
                false,
                &value.base,
                value.nullable,
            )
        }
        BaseNode::Handle(_) | BaseNode::Pending { .. } => Ok(()),
    }
}

/// Notes what is refused in a type, which goes by the identifier of its member or its constant: it is
/// that of a `field` of a struct or of a parameter, or else that of another member or a constant.
pub fn check_type(
    alloc: Global,
    best: &mut Option<Refusal>,
    scope: &ScopeView<'_>,
    member: &Identifier,
    field: bool,
    kind: &Type,
) -> Result<(), AllocError>
    ensures { OnOk result (best.new ≡ best_of best.old (refused_in_type (scope_view scope.now) member.now field kind.now)) }
{
    let node = kind.node();
    check_base(alloc, best, scope, member, field, &node.base, node.nullable)
}

/// Notes what is refused in the type of a member that has one: of a `field` of a struct or a parameter,
/// or else of another member.
pub fn check_member(
    alloc: Global,
    best: &mut Option<Refusal>,
    scope: &ScopeView<'_>,
    field: bool,
    member: &MemberView<'_>,
) -> Result<(), AllocError>
    ensures { OnOk result (best.new ≡ best_of best.old (refused_in_member (scope_view scope.now) field (member_view member.now))) }
{
    match member.kind {
        Some(kind) => check_type(alloc, best, scope, member.name, field, kind),
        None => Ok(()),
    }
}
