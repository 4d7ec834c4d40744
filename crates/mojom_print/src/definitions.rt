//! Constants, enums, structs and unions.

ghost use Rattle.std.specs.Prelude.{◌≡◌, ◌<◌, ◌+◌, ◌++◌, OnOk};
ghost use Rattle.std.specs.List.{flat_map};
ghost use Rattle.mojom_print.specs.Definitions.{const_text, enumerator_text, enum_text, field_text, struct_member_text, struct_text, union_field_text, union_text};

use crate::attributes::push_attribute_line;
use crate::types::push_declared;
use crate::words::{push_assigned, push_indent, push_ordinal, push_text, push_value};
use mojom_ast::{
    Const, Enum, Enumerator, Field, Struct, StructItem, StructMember, Union, UnionField,
};
use std::alloc::AllocError;

/// Writes a constant.
#[tactic(auto, unfolding(crate::specs::Definitions::const_text))]
pub fn push_const(out: &mut Vec<u8>, depth: usize, item: &Const) -> Result<(), AllocError>
    ensures { OnOk result (out.new.items ≡ out.old.items ++ const_text depth item.now) }
{
    push_indent(out, depth)?;
    push_text(out, "const ")?;
    push_declared(out, &item.kind, &item.name)?;
    push_text(out, " = ")?;
    push_value(out, &item.value)?;
    push_text(out, ";\n")
}

/// Writes an enumerator.
#[tactic(auto, unfolding(crate::specs::Definitions::enumerator_text))]
fn push_enumerator(
    out: &mut Vec<u8>,
    depth: usize,
    enumerator: &Enumerator,
) -> Result<(), AllocError>
    ensures { OnOk result (out.new.items ≡ out.old.items ++ enumerator_text depth enumerator.now) }
{
    push_attribute_line(out, depth, enumerator.attributes.as_slice())?;
    push_indent(out, depth)?;
    push_text(out, enumerator.name.text.as_str())?;
    push_assigned(out, &enumerator.value)?;
    push_text(out, ",\n")
}

/// Writes the enumerators of an enum.
fn push_enumerators(
    out: &mut Vec<u8>,
    depth: usize,
    enumerators: &[Enumerator],
) -> Result<(), AllocError>
    ensures { OnOk result (out.new.items ≡ out.old.items ++ flat_map (enumerator_text depth) enumerators.now) }
{
    for enumerator in enumerators {
        push_enumerator(out, depth, enumerator)?;
    }
    Ok(())
}

/// Writes an enum.
#[tactic(auto, unfolding(crate::specs::Definitions::enum_text))]
pub fn push_enum(out: &mut Vec<u8>, depth: usize, item: &Enum) -> Result<(), AllocError>
    requires { depth < usize.MAX }
    ensures { OnOk result (out.new.items ≡ out.old.items ++ enum_text depth item.now) }
{
    push_indent(out, depth)?;
    push_text(out, "enum ")?;
    push_text(out, item.name.text.as_str())?;
    push_text(out, " {\n")?;
    push_enumerators(out, depth + 1, item.enumerators.as_slice())?;
    push_indent(out, depth)?;
    push_text(out, "};\n")
}

/// Writes a field of a struct.
#[tactic(auto, unfolding(crate::specs::Definitions::field_text))]
fn push_field(out: &mut Vec<u8>, field: &Field) -> Result<(), AllocError>
    ensures { OnOk result (out.new.items ≡ out.old.items ++ field_text field.now) }
{
    push_text(out, "  ")?;
    push_declared(out, &field.kind, &field.name)?;
    push_ordinal(out, field.ordinal)?;
    push_assigned(out, &field.default)?;
    push_text(out, ";\n")
}

/// Writes a member of a struct, behind its attributes.
fn push_struct_member(out: &mut Vec<u8>, member: &StructMember) -> Result<(), AllocError>
    ensures { OnOk result (out.new.items ≡ out.old.items ++ struct_member_text member.now) }
{
    push_attribute_line(out, 1, member.attributes.as_slice())?;
    match &member.item {
        StructItem::Const(item) => push_const(out, 1, item),
        StructItem::Enum(item) => push_enum(out, 1, item),
        StructItem::Field(field) => push_field(out, field),
    }
}

/// Writes the members of a struct.
fn push_struct_members(out: &mut Vec<u8>, members: &[StructMember]) -> Result<(), AllocError>
    ensures { OnOk result (out.new.items ≡ out.old.items ++ flat_map struct_member_text members.now) }
{
    for member in members {
        push_struct_member(out, member)?;
    }
    Ok(())
}

/// Writes a struct.
#[tactic(auto, unfolding(crate::specs::Definitions::struct_text))]
pub fn push_struct(out: &mut Vec<u8>, item: &Struct) -> Result<(), AllocError>
    ensures { OnOk result (out.new.items ≡ out.old.items ++ struct_text item.now) }
{
    push_text(out, "struct ")?;
    push_text(out, item.name.text.as_str())?;
    push_text(out, " {\n")?;
    push_struct_members(out, item.members.as_slice())?;
    push_text(out, "};\n")
}

/// Writes a field of a union, behind its attributes.
#[tactic(auto, unfolding(crate::specs::Definitions::union_field_text))]
fn push_union_field(out: &mut Vec<u8>, field: &UnionField) -> Result<(), AllocError>
    ensures { OnOk result (out.new.items ≡ out.old.items ++ union_field_text field.now) }
{
    push_attribute_line(out, 1, field.attributes.as_slice())?;
    push_text(out, "  ")?;
    push_declared(out, &field.kind, &field.name)?;
    push_ordinal(out, field.ordinal)?;
    push_text(out, ";\n")
}

/// Writes the fields of a union.
fn push_union_fields(out: &mut Vec<u8>, fields: &[UnionField]) -> Result<(), AllocError>
    ensures { OnOk result (out.new.items ≡ out.old.items ++ flat_map union_field_text fields.now) }
{
    for field in fields {
        push_union_field(out, field)?;
    }
    Ok(())
}

/// Writes a union.
#[tactic(auto, unfolding(crate::specs::Definitions::union_text))]
pub fn push_union(out: &mut Vec<u8>, item: &Union) -> Result<(), AllocError>
    ensures { OnOk result (out.new.items ≡ out.old.items ++ union_text item.now) }
{
    push_text(out, "union ")?;
    push_text(out, item.name.text.as_str())?;
    push_text(out, " {\n")?;
    push_union_fields(out, item.fields.as_slice())?;
    push_text(out, "};\n")
}
