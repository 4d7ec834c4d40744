//! Lists, maps and structs from their parts.

ghost use Rattle.std.specs.Prelude.{◌≡◌, ◌∷◌, ◌++◌, [], map, OnOk};
ghost use Rattle.wire_model.specs.Trees.{view};
ghost use Rattle.value_text.specs.Rules.{map_of, items_of, fields_of};

use std::alloc::AllocError;
use wire_model::Value;

/// The keys of a map and their values.
#[derive(Drop)]
pub struct Entries {
    pub keys: Vec<Value>,
    pub values: Vec<Value>,
}

impl Entries {
    /// Adds a key and its value.
    pub fn push(&mut self, key: Value, value: Value) -> Result<(), AllocError>
        ensures keys { OnOk result (self.new.keys.items ≡ self.old.keys.items ++ key ∷ []) }
        ensures values { OnOk result (self.new.values.items ≡ self.old.values.items ++ value ∷ []) }
    {
        self.keys.push(key)?;
        self.values.push(value)?;
        Ok(())
    }
}

/// The map of these keys and values.
pub fn map_of(pairs: Entries) -> Value
    ensures { view result ≡ map_of (map view pairs.keys.items) (map view pairs.values.items) }
{
    Value::Map {
        keys: pairs.keys,
        values: pairs.values,
    }
}

/// The list of these elements.
pub fn list_of(items: Vec<Value>) -> Value
    ensures { view result ≡ items_of (map view items.items) }
{
    Value::List(items)
}

/// The struct of these fields.
pub fn struct_of(values: Vec<Value>) -> Value
    ensures { view result ≡ fields_of (map view values.items) }
{
    Value::Struct(values)
}
