//! How many rows stand before each definition, looked up by the number of its file.

ghost use Rattle.std.specs.Prelude.{◌≡◌, ◌==◌, ℕ, Some, None, if◌then◌else◌, slice_get, OnOk};
ghost use Rattle.std.specs.Option.{option_or, option_copied};
ghost use Rattle.std.specs.Bool.{nat_eq};
ghost use Rattle.std.specs.HashMap.{get};

use crate::counts::{Counts, FileRows};
use mj_base::Items;
use std::alloc::{AllocError, Global};
use std::collections::HashMap;
use std::marker::Model;

/// How many rows stand before each definition of files, and where each file stands among these.
#[derive(Drop)]
pub struct RowTable {
    rows: Items<FileRows>,
    places: HashMap<u32, usize>,
}

impl Model for RowTable {
    ghost use Rattle.std.specs.Prelude.{List, ℕ, ◌≡◌};
    ghost use Rattle.std.specs.Bool.{nat_eq};
    ghost use Rattle.std.specs.HashMap.{get};
    ghost use Rattle.draft_rows.specs.declared.counts.FileRows.{FileRows};
    ghost use Rattle.draft_rows.specs.steps.RowPlaces.{place_of};

    ghost Value = { List FileRows };

    ghost view = { λ t. t.rows };

    ghost invariant = { λ t. (file : ℕ) → get nat_eq t.places file ≡ place_of file t.rows };
}

/// Notes the place of a file, where it has none.
fn note(places: &mut HashMap<u32, usize>, file: u32, place: usize) -> Result<(), AllocError>
    ensures { OnOk result ((q : ℕ) → get nat_eq places.new q ≡
        option_or (get nat_eq places.old q) (if file == q then Some place else None)) }
{
    if places.get(&file).is_some() {
        return Ok(());
    }
    places.insert(file, place)?;
    Ok(())
}

/// The rows at a place.
fn row_at(rows: &[FileRows], place: usize) -> Option<&FileRows>
    ensures { option_copied result ≡ slice_get rows.now place }
{
    rows.get(place)
}

impl RowTable {
    ghost use Rattle.std.specs.Prelude.{◌≡◌, ◌==◌, find, IfOk};
    ghost use Rattle.std.specs.Option.{option_copied};
    ghost use Rattle.draft_rows.specs.RowCounts.{rows_before};

    /// The table of these rows.
    pub fn new(alloc: Global, rows: Items<FileRows>) -> Result<RowTable, AllocError>
        ensures { IfOk result (λ made. made ≡ rows) }
    {
        let mut places = HashMap::new(alloc);
        for (place, row) in rows.as_slice().iter().enumerate() {
            note(&mut places, row.file, place)?;
        }
        Ok(RowTable { rows, places })
    }

    /// The first rows of the file of this number.
    fn rows_in(&self, file: u32) -> Option<&FileRows>
        ensures { option_copied result ≡ find (λ row. row.file == file) self.now }
    {
        let place = self.places.get(&file)?;
        row_at(self.rows.as_slice(), *place)
    }

    /// How many rows stand before the definition of this number in the file of this number.
    pub fn before(&self, file: u32, number: usize) -> Option<Counts>
        ensures { result ≡ rows_before self.now file number }
    {
        let row = self.rows_in(file)?;
        row.before.as_slice().get(number).copied()
    }
}
