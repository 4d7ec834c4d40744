//! Constants, enums, unions and interfaces.

ghost use Rattle.std.specs.Prelude.{◌≡◌, ◌++◌, OnOk};
ghost use Rattle.std.specs.List.{flat_map};
ghost use Rattle.schema_text.specs.Listing.{const_text, member_line, enum_text, union_text, method_line, interface_text};

use crate::fields::push_union_fields;
use crate::kinds::push_kind_word;
use crate::words::{
    push_heading, push_name_word, push_number_word, push_signed, push_value, push_word,
};
use mj_schema::{ConstRow, EnumRow, InterfaceRow, MemberRow, MethodRow, Schema, UnionRow};
use mojom_print::push_text;
use std::alloc::AllocError;

/// Writes a constant.
#[tactic(auto, unfolding(crate::specs::Listing::const_text))]
pub fn push_const(out: &mut Vec<u8>, schema: &Schema, row: &ConstRow) -> Result<(), AllocError>
    ensures { OnOk result (out.new.items ≡ out.old.items ++ const_text schema.now row.now) }
{
    push_text(out, "const")?;
    push_name_word(out, &row.name)?;
    push_kind_word(out, schema, &row.kind)?;
    push_text(out, " ")?;
    push_value(out, &row.value)?;
    push_text(out, "\n")
}

/// Writes a member of an enum.
#[tactic(auto, unfolding(crate::specs::Listing::member_line))]
fn push_member(out: &mut Vec<u8>, member: &MemberRow) -> Result<(), AllocError>
    ensures { OnOk result (out.new.items ≡ out.old.items ++ member_line member.now) }
{
    push_text(out, "  value")?;
    push_word(out, member.name.as_str())?;
    push_text(out, " ")?;
    push_signed(out, i128::from(member.number))?;
    push_text(out, "\n")
}

/// Writes the members of an enum.
fn push_members(out: &mut Vec<u8>, members: &[MemberRow]) -> Result<(), AllocError>
    ensures { OnOk result (out.new.items ≡ out.old.items ++ flat_map member_line members.now) }
{
    for member in members {
        push_member(out, member)?;
    }
    Ok(())
}

/// Writes an enum.
#[tactic(auto, unfolding(crate::specs::Listing::enum_text))]
pub fn push_enum(out: &mut Vec<u8>, row: &EnumRow) -> Result<(), AllocError>
    ensures { OnOk result (out.new.items ≡ out.old.items ++ enum_text row.now) }
{
    push_heading(out, "enum", &row.name, row.extensible)?;
    push_members(out, row.members.as_slice())
}

/// Writes a union.
#[tactic(auto, unfolding(crate::specs::Listing::union_text))]
pub fn push_union(out: &mut Vec<u8>, schema: &Schema, row: &UnionRow) -> Result<(), AllocError>
    ensures { OnOk result (out.new.items ≡ out.old.items ++ union_text schema.now row.now) }
{
    push_heading(out, "union", &row.name, row.extensible)?;
    push_union_fields(out, schema, row.fields.as_slice())
}

/// Writes a method.
#[tactic(auto, unfolding(crate::specs::Listing::method_line))]
fn push_method(out: &mut Vec<u8>, method: &MethodRow) -> Result<(), AllocError>
    ensures { OnOk result (out.new.items ≡ out.old.items ++ method_line method.now) }
{
    push_text(out, "  method")?;
    push_number_word(out, method.ordinal)?;
    push_word(out, method.name.as_str())?;
    push_text(out, "\n")
}

/// Writes the methods of an interface.
fn push_methods(out: &mut Vec<u8>, methods: &[MethodRow]) -> Result<(), AllocError>
    ensures { OnOk result (out.new.items ≡ out.old.items ++ flat_map method_line methods.now) }
{
    for method in methods {
        push_method(out, method)?;
    }
    Ok(())
}

/// Writes an interface.
#[tactic(auto, unfolding(crate::specs::Listing::interface_text))]
pub fn push_interface(out: &mut Vec<u8>, row: &InterfaceRow) -> Result<(), AllocError>
    ensures { OnOk result (out.new.items ≡ out.old.items ++ interface_text row.now) }
{
    push_text(out, "interface")?;
    push_name_word(out, &row.name)?;
    push_text(out, "\n")?;
    push_methods(out, row.methods.as_slice())
}
