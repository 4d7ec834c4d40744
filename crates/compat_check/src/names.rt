//! The full names of a schema's definitions.

ghost use Rattle.std.specs.Prelude.{◌≡◌, ◌==◌, ◌||◌, ◌++◌, ℕ, Some, None, if◌then◌else◌, map, IfOk, OnOk};
ghost use Rattle.std.specs.BTreeSet.{contains};
ghost use Rattle.std.specs.List.{flat_map, list_any};
ghost use Rattle.std.specs.Ordering.{nat_cmp};
ghost use Rattle.mj_schema.specs.WellFormed.{structs_of_methods};
ghost use Rattle.mj_schema.specs.declared.rows.EnumRow.{EnumRow as enum_row};
ghost use Rattle.mj_schema.specs.declared.rows.InterfaceRow.{InterfaceRow as interface_row};
ghost use Rattle.mj_schema.specs.declared.rows.UnionRow.{UnionRow as union_row};
ghost use Rattle.compat_model.specs.Verdicts.{struct_names};
ghost use Rattle.compat_check.specs.steps.Names.{method_structs, structs_in, is_among};

use mj_base::Text;
use mj_schema::{EnumRow, InterfaceRow, MethodRow, StructRow, UnionRow};
use std::alloc::{AllocError, Global};
use std::collections::BTreeSet;

/// Adds the structs that a method has.
fn push_method(out: &mut Vec<u32>, method: &MethodRow) -> Result<(), AllocError>
    ensures { OnOk result (out.new.items ≡ out.old.items ++ method_structs method.now) }
{
    out.push(method.request)?;
    if let Some(response) = method.response {
        out.push(response)?;
    }
    Ok(())
}

/// Adds the structs that methods have.
fn push_methods(out: &mut Vec<u32>, methods: &[MethodRow]) -> Result<(), AllocError>
    ensures { OnOk result (out.new.items ≡ out.old.items ++ flat_map method_structs methods.now) }
{
    for method in methods {
        push_method(out, method)?;
    }
    Ok(())
}

/// Adds the structs that the methods of an interface have.
fn push_interface(out: &mut Vec<u32>, row: &InterfaceRow) -> Result<(), AllocError>
    ensures { OnOk result (out.new.items ≡ out.old.items ++ structs_in row.now) }
{
    push_methods(out, row.methods.as_slice())
}

/// Adds the structs that the methods of interfaces have.
fn push_interfaces(out: &mut Vec<u32>, interfaces: &[InterfaceRow]) -> Result<(), AllocError>
    ensures { OnOk result (out.new.items ≡ out.old.items ++ flat_map structs_in interfaces.now) }
{
    for row in interfaces {
        push_interface(out, row)?;
    }
    Ok(())
}

/// The structs that the methods of interfaces have.
fn method_numbers(alloc: Global, interfaces: &[InterfaceRow]) -> Result<Vec<u32>, AllocError>
    ensures { IfOk result (λ made. made.items ≡ flat_map structs_in interfaces.now) }
{
    let mut made = Vec::new(alloc);
    push_interfaces(&mut made, interfaces)?;
    Ok(made)
}

/// Adds a number where it isn't there.
fn mark(marks: &mut BTreeSet<usize>, number: usize) -> Result<(), AllocError>
    ensures { OnOk result ((q : ℕ) → contains nat_cmp marks.new q ≡ (contains nat_cmp marks.old q || (number == q))) }
{
    marks.insert(number)?;
    Ok(())
}

/// The set of these numbers.
fn marks_of(alloc: Global, numbers: &[u32]) -> Result<BTreeSet<usize>, AllocError>
    ensures { IfOk result (λ marks. (q : ℕ) → contains nat_cmp marks q ≡ is_among numbers.now q) }
{
    let mut marks = BTreeSet::new(alloc);
    for number in numbers {
        mark(&mut marks, *number as usize)?;
    }
    Ok(marks)
}

/// The full name of a struct of this number, where it isn't of a method.
fn struct_name(
    alloc: Global,
    marks: &BTreeSet<usize>,
    number: usize,
    row: &StructRow,
) -> Result<Option<Text>, AllocError>
    ensures { IfOk result (λ name. name ≡ (if contains nat_cmp marks.now number then None else Some row.now.name)) }
{
    if marks.contains(&number) {
        return Ok(None);
    }
    Ok(Some(row.name.full(alloc)?))
}

/// The full names of structs, where those that are marked have none.
fn struct_names(
    alloc: Global,
    marks: &BTreeSet<usize>,
    structs: &[StructRow],
) -> Result<Vec<Option<Text>>, AllocError>
    ensures { IfOk result (λ made. made.items ≡ struct_names (contains nat_cmp marks.now) 0 structs.now) }
{
    let mut made = Vec::new(alloc);
    for (number, row) in structs.iter().enumerate() {
        made.push(struct_name(alloc, marks, number, row)?)?;
    }
    Ok(made)
}

/// The full names of structs, where those of methods have none.
pub(crate) fn names_of_structs(
    alloc: Global,
    interfaces: &[InterfaceRow],
    structs: &[StructRow],
) -> Result<Vec<Option<Text>>, AllocError>
    ensures { IfOk result (λ made. made.items
        ≡ struct_names (λ (n : ℕ). list_any (λ (other : ℕ). other == n) (structs_of_methods interfaces.now)) 0 structs.now) }
{
    let numbers = method_numbers(alloc, interfaces)?;
    let marks = marks_of(alloc, numbers.as_slice())?;
    let made = struct_names(alloc, &marks, structs)?;
    Ok(made)
}

/// The full names of unions.
pub(crate) fn names_of_unions(
    alloc: Global,
    unions: &[UnionRow],
) -> Result<Vec<Option<Text>>, AllocError>
    ensures { IfOk result (λ made. made.items ≡ map (λ (row : union_row). Some row.name) unions.now) }
{
    let mut made = Vec::new(alloc);
    for row in unions {
        made.push(Some(row.name.full(alloc)?))?;
    }
    Ok(made)
}

/// The full names of enums.
pub(crate) fn names_of_enums(
    alloc: Global,
    enums: &[EnumRow],
) -> Result<Vec<Option<Text>>, AllocError>
    ensures { IfOk result (λ made. made.items ≡ map (λ (row : enum_row). Some row.name) enums.now) }
{
    let mut made = Vec::new(alloc);
    for row in enums {
        made.push(Some(row.name.full(alloc)?))?;
    }
    Ok(made)
}

/// The full names of interfaces.
pub(crate) fn names_of_interfaces(
    alloc: Global,
    interfaces: &[InterfaceRow],
) -> Result<Vec<Option<Text>>, AllocError>
    ensures { IfOk result (λ made. made.items ≡ map (λ (row : interface_row). Some row.name) interfaces.now) }
{
    let mut made = Vec::new(alloc);
    for row in interfaces {
        made.push(Some(row.name.full(alloc)?))?;
    }
    Ok(made)
}
