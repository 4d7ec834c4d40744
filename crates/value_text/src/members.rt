//! Numbers of an enum's members, and tags of a union's fields.

ghost use Rattle.std.specs.Prelude.{◌≡◌, slice_get, Some, Ok, pos, decimal, IfSome};
ghost use Rattle.std.specs.Fmt.{signed_decimal};
ghost use Rattle.mj_schema.specs.declared.rows.UnionRow.{UnionRow};
ghost use Rattle.byte_rules.specs.Among.{among};
ghost use Rattle.byte_rules.specs.Reading.{Gives};
ghost use Rattle.value_text.specs.Numbers.{members_numbers, fields_tags};

use crate::numbers::{index, integer, is_digit_next};
use byte_rules::{Stop, nearer};
use mj_schema::{MemberRow, MemberRows, Schema, UnionFieldRow, UnionRow};
use schema_rows::kind_in;
use std::alloc::Global;

/// The number of a member.
fn number_in(member: &MemberRow) -> i32
    ensures { result ≡ member.now.number }
{
    member.number
}

/// The tag of a field.
fn tag_in(field: &UnionFieldRow) -> u32
    ensures { result ≡ field.now.tag }
{
    field.tag
}

/// The int32 that a number is; none where it is none.
fn as_int32(number: i128) -> Option<i32>
    ensures { IfSome result (λ small. small ≡ number) }
{
    if -(1 << 31) <= number && number < 1 << 31 {
        Some(number as i32)
    } else {
        None
    }
}

/// The number of a member at the front, and the bytes after it, where no digit follows; none says nothing.
pub fn known_member<'a>(members: &MemberRows, bytes: &'a [u8]) -> Option<(i128, &'a [u8])>
    ensures { IfSome result (λ x. (among (pos 0) signed_decimal (members_numbers members.now)).read bytes.now ≡ Ok (x.0, x.1.now)) }
{
    let Ok((number, rest)) = integer(1 << 31, (1 << 31) - 1, bytes) else {
        return None;
    };
    if is_digit_next(rest) {
        return None;
    }
    match as_int32(number) {
        Some(small) if members.has_number(small) => Some((number, rest)),
        _ => None,
    }
}

/// The number of a member, and the bytes after it, as all members' words are gone through.
pub fn nearest_member<'a>(
    alloc: Global,
    members: &[MemberRow],
    bytes: &'a [u8],
) -> Result<(i128, &'a [u8]), Stop>
    ensures { Gives (λ x. (x.0, x.1.now)) result ((among (pos 0) signed_decimal (members_numbers members.now)).read bytes.now) }
{
    let mut near = (0, None);
    for member in members {
        let number = number_in(member);
        let word = number.to_string(alloc)?;
        near = nearer(near, number, word.as_bytes(), bytes);
    }
    match near.1 {
        Some(number) => Ok((i128::from(number), &bytes[near.0..])),
        None => Err(Stop::Left(bytes.len() - near.0)),
    }
}

/// The tag of a field of the union of this number at the front, and the bytes after it, where no digit
/// follows; none says nothing.
pub fn known_tag<'a>(schema: &Schema, number: u32, bytes: &'a [u8]) -> Option<(u32, &'a [u8])>
    ensures { IfSome result (λ x. (row : UnionRow) → slice_get schema.now.unions number ≡ Some row
        → (among 0 decimal (fields_tags row.fields)).read bytes.now ≡ Ok (x.0, x.1.now)) }
{
    let Ok((tag, rest)) = index(bytes) else {
        return None;
    };
    match kind_in(schema, number, tag) {
        Some(_) if !is_digit_next(rest) => Some((tag, rest)),
        _ => None,
    }
}

/// The tag of a field, and the bytes after it, as all fields' tags are gone through.
pub fn nearest_tag<'a>(
    alloc: Global,
    fields: &[UnionFieldRow],
    bytes: &'a [u8],
) -> Result<(u32, &'a [u8]), Stop>
    ensures { Gives (λ x. (x.0, x.1.now)) result ((among 0 decimal (fields_tags fields.now)).read bytes.now) }
{
    let mut near = (0, None);
    for field in fields {
        let tag = tag_in(field);
        let word = tag.to_string(alloc)?;
        near = nearer(near, tag, word.as_bytes(), bytes);
    }
    match near.1 {
        Some(tag) => Ok((tag, &bytes[near.0..])),
        None => Err(Stop::Left(bytes.len() - near.0)),
    }
}
