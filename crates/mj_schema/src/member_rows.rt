//! The members of an enum.

ghost use Rattle.std.specs.Prelude.{◌≡◌, IfOk, map};
ghost use Rattle.std.specs.List.{list_any};
ghost use Rattle.std.specs.Ordering.{int_eq};
ghost use Rattle.mj_schema.specs.Places.{number_of, places_from};

use crate::places::{KeyPlace, in_order, place_of};
use crate::rows::MemberRow;
use std::alloc::{AllocError, Global};
use std::marker::Model;

/// The members of an enum, as the file has them. Their numbers are found by halving.
#[derive(Drop)]
pub struct MemberRows {
    rows: Vec<MemberRow>,
    by_number: Vec<KeyPlace>,
}

impl Model for MemberRows {
    ghost use Rattle.std.specs.Prelude.{List};
    ghost use Rattle.mj_schema.specs.declared.rows.MemberRow.{MemberRow};

    ghost Value = { List MemberRow };

    ghost use Rattle.std.specs.Prelude.{map};
    ghost use Rattle.mj_schema.specs.Places.{AreOrdered, number_of};

    ghost view = { λ members. members.rows.items };

    ghost invariant = { λ members. AreOrdered (map number_of members.rows.items) members.by_number.items };
}

impl MemberRows {
    /// These members.
    pub fn from_vec(alloc: Global, rows: Vec<MemberRow>) -> Result<MemberRows, AllocError>
        ensures { IfOk result (λ made. made ≡ rows.items) }
    {
        let places = number_places(alloc, rows.as_slice())?;
        let by_number = in_order(places);
        Ok(MemberRows { rows, by_number })
    }

    /// The members, as the file has them.
    pub fn as_slice(&self) -> &[MemberRow]
        ensures { result.now ≡ self.now }
    {
        self.rows.as_slice()
    }

    /// Whether a member has this number.
    pub fn has_number(&self, number: i32) -> bool
        ensures { result ≡ list_any (λ member. int_eq member.number number) self.now }
    {
        let places = self.by_number.as_slice();
        let key = i64::from(number);
        let place = place_of(places, key);
        place.is_some()
    }
}

/// Where each number stands.
fn number_places(alloc: Global, rows: &[MemberRow]) -> Result<Vec<KeyPlace>, AllocError>
    ensures { IfOk result (λ made. made.items ≡ places_from 0 (map number_of rows.now)) }
{
    let mut made = Vec::new(alloc);
    for (place, member) in rows.iter().enumerate() {
        let key = i64::from(member.number);
        made.push(KeyPlace { key, place })?;
    }
    Ok(made)
}
