//! The fields of a union.

ghost use Rattle.std.specs.Prelude.{◌≡◌, ◌==◌, IfOk, find, map, option_and_then, slice_get};
ghost use Rattle.std.specs.Option.{option_copied};
ghost use Rattle.mj_schema.specs.Places.{places_from, tag_of};

use crate::places::{KeyPlace, in_order, place_of};
use crate::rows::UnionFieldRow;
use std::alloc::{AllocError, Global};
use std::marker::Model;

/// The fields of a union, as the file has them. Their tags are found by halving.
#[derive(Drop)]
pub struct UnionFieldRows {
    rows: Vec<UnionFieldRow>,
    by_tag: Vec<KeyPlace>,
}

impl Model for UnionFieldRows {
    ghost use Rattle.std.specs.Coded.{codes};
    ghost use Rattle.std.specs.Prelude.{List};
    ghost use Rattle.mj_schema.specs.declared.rows.UnionFieldRow.{UnionFieldRow};
    ghost use Rattle.mj_schema.specs.steps.FieldCodes.{fields_code};
    ghost use Rattle.mj_schema.specs.steps.KindCodes.{kind_code};

    ghost Value = { List UnionFieldRow };

    ghost coded = { fields_code (kind_code (Prim.hlevel codes)) };

    ghost use Rattle.std.specs.Prelude.{map};
    ghost use Rattle.mj_schema.specs.Places.{AreOrdered, tag_of};

    ghost view = { λ fields. fields.rows.items };

    ghost invariant = { λ fields. AreOrdered (map tag_of fields.rows.items) fields.by_tag.items };
}

impl UnionFieldRows {
    /// These fields.
    pub fn from_vec(alloc: Global, rows: Vec<UnionFieldRow>) -> Result<UnionFieldRows, AllocError>
        ensures { IfOk result (λ made. made ≡ rows.items) }
    {
        let places = tag_places(alloc, rows.as_slice())?;
        let by_tag = in_order(places);
        Ok(UnionFieldRows { rows, by_tag })
    }

    /// The fields, as the file has them.
    pub fn as_slice(&self) -> &[UnionFieldRow]
        ensures { result.now ≡ self.now }
    {
        self.rows.as_slice()
    }

    /// The first field of this tag; none exactly where no field has it.
    pub fn of_tag(&self, tag: u32) -> Option<&UnionFieldRow>
        ensures { option_copied result ≡ find (λ field. field.tag == tag) self.now }
    {
        let places = self.by_tag.as_slice();
        let key = i64::from(tag);
        let place = place_of(places, key);
        row_at(self.rows.as_slice(), place)
    }
}

/// The row at a place, where there is a place.
fn row_at(rows: &[UnionFieldRow], place: Option<usize>) -> Option<&UnionFieldRow>
    ensures { option_copied result ≡ option_and_then (slice_get rows.now) place }
{
    rows.get(place?)
}

/// Where each tag stands.
fn tag_places(alloc: Global, rows: &[UnionFieldRow]) -> Result<Vec<KeyPlace>, AllocError>
    ensures { IfOk result (λ made. made.items ≡ places_from 0 (map tag_of rows.now)) }
{
    let mut made = Vec::new(alloc);
    for (place, field) in rows.iter().enumerate() {
        let key = i64::from(field.tag);
        made.push(KeyPlace { key, place })?;
    }
    Ok(made)
}
