//! Fields of structs and of unions.

ghost use Rattle.std.specs.Prelude.{◌≡◌, ◌++◌, Some, codes, OnOk};
ghost use Rattle.std.specs.List.{flat_map};
ghost use Rattle.schema_text.specs.Listing.{line, flag_words, field_text, field_line, union_field_line};

use crate::kinds::push_kind_word;
use crate::words::{push_number_word, push_word};
use mj_schema::{FieldRow, Flag, Kind, Schema, UnionFieldRow};
use mojom_print::push_text;
use std::alloc::AllocError;

/// Writes what fields of structs and of unions have in common.
#[tactic(auto, unfolding(crate::specs::Listing::field_text))]
fn push_field_text(
    out: &mut Vec<u8>,
    schema: &Schema,
    number: u32,
    name: &str,
    kind: &Kind,
) -> Result<(), AllocError>
    ensures { OnOk result (out.new.items ≡ out.old.items ++ field_text schema.now number name.now kind.now) }
{
    push_text(out, "  field")?;
    push_number_word(out, number)?;
    push_word(out, name)?;
    push_kind_word(out, schema, kind)
}

/// Writes a field of a struct.
#[tactic(auto, unfolding(crate::specs::Listing::field_line))]
fn push_field(out: &mut Vec<u8>, schema: &Schema, field: &FieldRow) -> Result<(), AllocError>
    ensures { OnOk result (out.new.items ≡ out.old.items ++ field_line schema.now field.now) }
{
    push_field_text(out, schema, field.ordinal, field.name.as_str(), &field.kind)?;
    push_number_word(out, field.offset)?;
    push_number_word(out, field.bit)?;
    push_number_word(out, field.min_version)?;
    match field.flag {
        Some(flag) => push_flag(out, flag),
        None => push_text(out, "\n"),
    }
}

/// Writes where a field has its flag, and the end of the line.
fn push_flag(out: &mut Vec<u8>, flag: Flag) -> Result<(), AllocError>
    ensures { OnOk result (out.new.items ≡ out.old.items ++ (codes " " ++ line (flag_words (Some flag)))) }
{
    push_word(out, "flag")?;
    push_number_word(out, flag.offset)?;
    push_number_word(out, flag.bit)?;
    push_text(out, "\n")
}

/// Writes the fields of a struct.
pub fn push_fields(
    out: &mut Vec<u8>,
    schema: &Schema,
    fields: &[FieldRow],
) -> Result<(), AllocError>
    ensures { OnOk result (out.new.items ≡ out.old.items ++ flat_map (field_line schema.now) fields.now) }
{
    for field in fields {
        push_field(out, schema, field)?;
    }
    Ok(())
}

/// Writes a field of a union.
#[tactic(auto, unfolding(crate::specs::Listing::union_field_line))]
fn push_union_field(
    out: &mut Vec<u8>,
    schema: &Schema,
    field: &UnionFieldRow,
) -> Result<(), AllocError>
    ensures { OnOk result (out.new.items ≡ out.old.items ++ union_field_line schema.now field.now) }
{
    push_field_text(out, schema, field.tag, field.name.as_str(), &field.kind)?;
    push_text(out, "\n")
}

/// Writes the fields of a union.
pub fn push_union_fields(
    out: &mut Vec<u8>,
    schema: &Schema,
    fields: &[UnionFieldRow],
) -> Result<(), AllocError>
    ensures { OnOk result (out.new.items ≡ out.old.items ++ flat_map (union_field_line schema.now) fields.now) }
{
    for field in fields {
        push_union_field(out, schema, field)?;
    }
    Ok(())
}
