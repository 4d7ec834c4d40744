//! What a newer enum changes of an older one.

ghost use Rattle.std.specs.Prelude.{◌≡◌, map, IfOk};
ghost use Rattle.mj_schema.specs.declared.rows.MemberRow.{MemberRow as member_row};
ghost use Rattle.compat_model.specs.Changes.{member_gone, enum_change};
ghost use Rattle.compat_model.specs.Members.{first_found, numbers_of};

use crate::fields::unless;
use crate::kinds::is_kept;
use crate::rising::rising_signed;
use compat_model::Change;
use mj_schema::{EnumRow, MemberRow};
use std::alloc::{AllocError, Global};

/// The numbers of members, as the file has them.
fn numbers_in(alloc: Global, members: &[MemberRow]) -> Result<Vec<i32>, AllocError>
    ensures { IfOk result (λ made. made.items ≡ map (λ (member : member_row). member.number) members.now) }
{
    let mut made = Vec::new(alloc);
    for member in members {
        made.push(member.number)?;
    }
    Ok(made)
}

/// The numbers of members as they rise.
fn numbers_of(alloc: Global, members: &[MemberRow]) -> Result<Vec<i32>, AllocError>
    ensures { IfOk result (λ made. made.items ≡ numbers_of members.now) }
{
    let numbers = numbers_in(alloc, members)?;
    let made = rising_signed(alloc, numbers.as_slice())?;
    Ok(made)
}

/// Whether the newer enum has no member of a number, and isn't extensible.
fn member_gone(newer: &EnumRow, number: i32) -> Option<Change>
    ensures { result ≡ member_gone newer.now number }
{
    let known = newer.extensible || newer.members.has_number(number);
    unless(known, Change::MemberGone(number))
}

/// The first number that the newer enum doesn't know.
fn first_gone(newer: &EnumRow, numbers: &[i32]) -> Option<Change>
    ensures { result ≡ first_found (member_gone newer.now) numbers.now }
{
    for number in numbers {
        if let Some(change) = member_gone(newer, *number) {
            return Some(change);
        }
    }
    None
}

/// What breaks two enums.
pub(crate) fn enum_change(
    alloc: Global,
    a: &EnumRow,
    b: &EnumRow,
) -> Result<Option<Change>, AllocError>
    ensures { IfOk result (λ change. change ≡ enum_change a.now b.now) }
{
    let numbers = numbers_of(alloc, a.members.as_slice())?;
    let closed = unless(is_kept(a.extensible, b.extensible), Change::ExtensibleGone);
    let gone = first_gone(b, numbers.as_slice());
    Ok(closed.or(gone))
}
