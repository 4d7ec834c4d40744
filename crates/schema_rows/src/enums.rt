//! What an enum reads as that the version of a struct lacks.

ghost use Rattle.std.specs.Prelude.{◌≡◌};
ghost use Rattle.std.specs.Option.{option_copied};
ghost use Rattle.wire_model.specs.Absent.{has_zero, first_number, enum_number};

use mj_schema::{EnumRow, MemberRow, MemberRows};

/// 0 where a member has it, else the number of the first member.
fn first_number(members: &MemberRows) -> i32
    ensures { result ≡ first_number members.now }
{
    first_unless(members.has_number(0), members.as_slice())
}

/// 0 where that is so, else the number of the first member.
fn first_unless(zero: bool, members: &[MemberRow]) -> i32
    requires { zero ≡ has_zero members.now }
    ensures { result ≡ first_number members.now }
{
    match members {
        [first, ..] if !zero => first.number,
        _ => 0,
    }
}

/// The number of an enum's default member, or else its first number.
pub fn enum_number(row: Option<&EnumRow>) -> i32
    ensures { result ≡ enum_number (option_copied row.entry) }
{
    match row {
        Some(row) => match row.default {
            Some(number) => number,
            None => first_number(&row.members),
        },
        None => 0,
    }
}
