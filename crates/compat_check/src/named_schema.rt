//! A newer schema, with its definitions by their full names.

ghost use Rattle.std.specs.Prelude.{◌≡◌, position, IfOk};
ghost use Rattle.mj_schema.specs.declared.rows.RowSort.TheVariants as sorts;
ghost use Rattle.compat_model.specs.Verdicts.{is_name, names_of, partner_of};
ghost use Rattle.compat_check.specs.steps.Named.{names_in, IsNamed};

use crate::name_table::NameTable;
use crate::names::{names_of_enums, names_of_interfaces, names_of_structs, names_of_unions};
use mj_base::{FullName, Items};
use mj_schema::{RowSort, Schema};
use std::alloc::{AllocError, Global};

/// A schema, with the numbers of its definitions by their full names.
#[derive(Drop)]
pub(crate) struct NamedSchema<'a> {
    pub schema: &'a Schema,
    structs: NameTable,
    unions: NameTable,
    enums: NameTable,
    interfaces: NameTable,
}

/// The structs of a schema by their full names, but for those of methods.
fn struct_table(alloc: Global, schema: &Schema) -> Result<NameTable, AllocError>
    ensures { IfOk result (λ made. made ≡ names_of schema.now sorts.Struct) }
{
    let names = names_of_structs(
        alloc,
        schema.interfaces.as_slice(),
        schema.structs.as_slice(),
    )?;
    let made = NameTable::new(alloc, Items::from_vec(names))?;
    Ok(made)
}

/// The unions of a schema by their full names.
fn union_table(alloc: Global, schema: &Schema) -> Result<NameTable, AllocError>
    ensures { IfOk result (λ made. made ≡ names_of schema.now sorts.Union) }
{
    let names = names_of_unions(alloc, schema.unions.as_slice())?;
    let made = NameTable::new(alloc, Items::from_vec(names))?;
    Ok(made)
}

/// The enums of a schema by their full names.
fn enum_table(alloc: Global, schema: &Schema) -> Result<NameTable, AllocError>
    ensures { IfOk result (λ made. made ≡ names_of schema.now sorts.Enum) }
{
    let names = names_of_enums(alloc, schema.enums.as_slice())?;
    let made = NameTable::new(alloc, Items::from_vec(names))?;
    Ok(made)
}

/// The interfaces of a schema by their full names.
fn interface_table(alloc: Global, schema: &Schema) -> Result<NameTable, AllocError>
    ensures { IfOk result (λ made. made ≡ names_of schema.now sorts.Interface) }
{
    let names = names_of_interfaces(alloc, schema.interfaces.as_slice())?;
    let made = NameTable::new(alloc, Items::from_vec(names))?;
    Ok(made)
}

/// A number of a row, as far as rows have such numbers.
fn row_number(place: Option<usize>) -> Result<Option<u32>, AllocError>
    ensures { IfOk result (λ number. number ≡ place) }
{
    match place {
        Some(place) => {
            let Ok(number) = u32::try_from(place) else {
                return Err(AllocError);
            };
            Ok(Some(number))
        }
        None => Ok(None),
    }
}

impl<'a> NamedSchema<'a> {
    /// A schema with its definitions by their full names.
    pub(crate) fn new(alloc: Global, schema: &'a Schema) -> Result<NamedSchema<'a>, AllocError>
        ensures schema { IfOk result (λ made. made.schema.now ≡ schema.now) }
        ensures named { IfOk result (λ made. IsNamed made) }
    {
        let structs = struct_table(alloc, schema)?;
        let unions = union_table(alloc, schema)?;
        let enums = enum_table(alloc, schema)?;
        let interfaces = interface_table(alloc, schema)?;
        Ok(NamedSchema {
            schema,
            structs,
            unions,
            enums,
            interfaces,
        })
    }
}

/// The place of the definition of a sort that has this name.
fn place_of(new: &NamedSchema<'_>, sort: RowSort, name: &str) -> Option<usize>
    ensures { result ≡ position (is_name name.now) (names_in new.now sort) }
{
    match sort {
        RowSort::Struct => new.structs.find(name),
        RowSort::Union => new.unions.find(name),
        RowSort::Enum => new.enums.find(name),
        RowSort::Interface => new.interfaces.find(name),
        RowSort::Const => None,
    }
}

/// The number of the definition of a sort and full name; none exactly where there is none.
pub(crate) fn partner_of(
    alloc: Global,
    new: &NamedSchema<'_>,
    sort: RowSort,
    name: &FullName,
) -> Result<Option<u32>, AllocError>
    requires { IsNamed new.now }
    ensures { IfOk result (λ number. number ≡ partner_of new.now.schema.now sort name.now) }
{
    let name = name.full(alloc)?;
    let place = place_of(new, sort, name.as_str());
    let number = row_number(place)?;
    Ok(number)
}
