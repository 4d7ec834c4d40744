//! The names of interfaces and methods, by their numbers.

ghost use Rattle.std.specs.Prelude.{◌≡◌, ◌++◌, IfOk, OnOk};
ghost use Rattle.history_text.specs.Names.{interface_name, method_name};

use mj_base::Text;
use mj_schema::Schema;
use std::alloc::{AllocError, Global};

/// The full name of an interface as one text, empty where there is none of this number.
pub(crate) fn name_of_interface(
    alloc: Global,
    schema: &Schema,
    interface: u32,
) -> Result<Text, AllocError>
    ensures { IfOk result (λ name. name ≡ interface_name schema.now interface) }
{
    match schema.interfaces.as_slice().get(interface as usize) {
        Some(row) => row.name.full(alloc),
        None => Text::from_str(alloc, ""),
    }
}

/// Adds the full name of an interface, nothing where there is none of this number.
pub(crate) fn push_interface(
    out: &mut Vec<u8>,
    schema: &Schema,
    interface: u32,
) -> Result<(), AllocError>
    ensures { OnOk result (out.new.items ≡ out.old.items ++ interface_name schema.now interface) }
{
    match schema.interfaces.as_slice().get(interface as usize) {
        Some(row) => row.name.push_to(out),
        None => Ok(()),
    }
}

/// A method's name within its interface, empty where there is none of this ordinal.
pub(crate) fn name_of_method(schema: &Schema, interface: u32, ordinal: u32) -> &str
    ensures { result.now ≡ method_name schema.now interface ordinal }
{
    match schema.method(interface, ordinal) {
        Some(method) => method.name.as_str(),
        None => "",
    }
}
