//! The rows of enums.

ghost use Rattle.std.specs.Prelude.{◌≡◌, pos, ◌+ℤ◌, map, IfOk};
ghost use Rattle.draft_rows.specs.Rows.{held_signed, whole_or, number_at, valued, member_row, default_in, enum_row};
ghost use Rattle.const_meanings.specs.Known.{known_view};
ghost use Rattle.kind_scope.specs.Views.{scope_view};
ghost use Rattle.draft_rows.specs.steps.Views.{valued_view};

use crate::member_row::{is_extensible, is_stable};
use const_meanings::KnownView;
use kind_scope::{ScopeView, is_default, known_in};
use mj_base::{FullName, Text};
use mj_schema::{EnumRow, MemberRow, MemberRows};
use mojom_ast::{Attribute, Enumerator, Value};
use std::alloc::{AllocError, Global};

/// An enumerator and its number.
#[derive(Clone, Copy)]
pub struct ValuedView<'a> {
    pub enumerator: &'a Enumerator,
    pub number: i32,
}

/// A number as one of 32 bits with a sign: what is outside counts as the nearest.
fn held_signed(number: i128) -> i32
    ensures { result ≡ held_signed number }
{
    number.clamp(-0x8000_0000, 0x7FFF_FFFF) as i32
}

/// The number that a value is, or else this one.
fn whole_or(next: i32, known: KnownView<'_>) -> i32
    ensures { result ≡ whole_or next (known_view known.entry) }
{
    match known {
        KnownView::Number(number) => held_signed(number),
        KnownView::Text(_) | KnownView::Bool(_) | KnownView::Float => next,
    }
}

/// The number of an enumerator: that of the value that is written, or else the next.
fn number_at(
    alloc: Global,
    scope: &ScopeView<'_>,
    next: i32,
    value: &Option<Value>,
) -> Result<i32, AllocError>
    ensures { IfOk result (λ number. number ≡ number_at (scope_view scope.now) next value.now) }
{
    let Some(value) = value else {
        return Ok(next);
    };
    match known_in(alloc, scope, value)? {
        Some(known) => Ok(whole_or(next, known)),
        None => Ok(next),
    }
}

/// The number after one.
fn number_after(number: i32) -> i32
    ensures { result ≡ held_signed (number +ℤ pos 1) }
{
    held_signed(i128::from(number) + 1)
}

/// The enumerators of an enum with their numbers.
pub fn valued<'a>(
    alloc: Global,
    scope: &ScopeView<'_>,
    enumerators: &'a [Enumerator],
) -> Result<Vec<ValuedView<'a>>, AllocError>
    ensures { IfOk result (λ made. map valued_view made.items ≡ valued (scope_view scope.now) enumerators.now) }
{
    let mut made = Vec::new(alloc);
    let mut next = 0;
    for enumerator in enumerators {
        let number = number_at(alloc, scope, next, &enumerator.value)?;
        made.push(ValuedView { enumerator, number })?;
        next = number_after(number);
    }
    Ok(made)
}

/// The rows of enumerators.
fn member_rows(alloc: Global, ones: &[ValuedView<'_>]) -> Result<MemberRows, AllocError>
    ensures { IfOk result (λ made. made ≡ map member_row (map valued_view ones.now)) }
{
    let mut made = Vec::new(alloc);
    for one in ones {
        let name = Text::from_str(alloc, one.enumerator.name.text.as_str())?;
        let number = one.number;
        made.push(MemberRow { name, number })?;
    }
    let members = MemberRows::from_vec(alloc, made)?;
    Ok(members)
}

/// The number of the first enumerator with `[Default]`; none where there is none.
fn default_in(ones: &[ValuedView<'_>]) -> Option<i32>
    ensures { result ≡ default_in (map valued_view ones.now) }
{
    for one in ones {
        if is_default(one.enumerator) {
            return Some(one.number);
        }
    }
    None
}

/// The enum of this full name and these enumerators.
pub fn enum_row(
    alloc: Global,
    full: &FullName,
    attributes: &[Attribute],
    ones: &[ValuedView<'_>],
) -> Result<EnumRow, AllocError>
    ensures { IfOk result (λ made. made ≡ enum_row full.now attributes.now (map valued_view ones.now)) }
{
    Ok(EnumRow {
        name: full.share(alloc)?,
        extensible: is_extensible(attributes),
        members: member_rows(alloc, ones)?,
        default: default_in(ones),
        stable: is_stable(attributes),
    })
}
