//! The methods of an interface by their ordinals.

ghost use Rattle.std.specs.Prelude.{◌≡◌, ◌==◌, ℕ, Some, None, if◌then◌else◌, slice_get, OnOk};
ghost use Rattle.std.specs.Option.{option_or, option_copied};
ghost use Rattle.std.specs.Bool.{nat_eq};
ghost use Rattle.std.specs.HashMap.{get};

use mj_schema::MethodRow;
use std::alloc::{AllocError, Global};
use std::collections::HashMap;
use std::marker::Model;

/// The methods of an interface, and where each ordinal stands among them. Contracts see the methods.
#[derive(Drop)]
pub(crate) struct MethodTable<'a> {
    methods: &'a [MethodRow],
    places: HashMap<u32, usize>,
}

impl<'a> Model for MethodTable<'a> {
    ghost use Rattle.std.specs.Prelude.{List, ℕ, ◌≡◌, ◌==◌, position};
    ghost use Rattle.std.specs.Bool.{nat_eq};
    ghost use Rattle.std.specs.HashMap.{get};
    ghost use Rattle.mj_schema.specs.declared.rows.MethodRow.{MethodRow};

    ghost Value = { List MethodRow };

    ghost view = { λ t. t.methods.now };

    ghost invariant = { λ t. (q : ℕ) → get nat_eq t.places q ≡ position (λ (method : MethodRow). method.ordinal == q) t.methods.now };
}

/// Notes the place of an ordinal, where it has none.
fn note(places: &mut HashMap<u32, usize>, ordinal: u32, place: usize) -> Result<(), AllocError>
    ensures { OnOk result ((q : ℕ) → get nat_eq places.new q ≡
        option_or (get nat_eq places.old q) (if ordinal == q then Some place else None)) }
{
    if places.get(&ordinal).is_some() {
        return Ok(());
    }
    places.insert(ordinal, place)?;
    Ok(())
}

/// The method at a place.
fn row_at(methods: &[MethodRow], place: usize) -> Option<&MethodRow>
    ensures { option_copied result ≡ slice_get methods.now place }
{
    methods.get(place)
}

impl<'a> MethodTable<'a> {
    ghost use Rattle.std.specs.Prelude.{◌≡◌, IfOk};
    ghost use Rattle.std.specs.Option.{option_copied};
    ghost use Rattle.compat_model.specs.Members.{method_at};

    /// The table of these methods.
    pub(crate) fn new(
        alloc: Global,
        methods: &'a [MethodRow],
    ) -> Result<MethodTable<'a>, AllocError>
        ensures { IfOk result (λ made. made ≡ methods.now) }
    {
        let mut places = HashMap::new(alloc);
        for (place, method) in methods.iter().enumerate() {
            note(&mut places, method.ordinal, place)?;
        }
        Ok(MethodTable { methods, places })
    }

    /// The method of an ordinal; none exactly where no method has it.
    pub(crate) fn method_at(&self, ordinal: u32) -> Option<&MethodRow>
        ensures { option_copied result ≡ method_at self.now ordinal }
    {
        let place = self.places.get(&ordinal)?;
        row_at(self.methods, *place)
    }
}
