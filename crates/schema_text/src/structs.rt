//! Structs.

ghost use Rattle.std.specs.Prelude.{◌≡◌, ◌++◌, OnOk};
ghost use Rattle.std.specs.List.{flat_map};
ghost use Rattle.schema_text.specs.Listing.{version_line, struct_text};

use crate::fields::push_fields;
use crate::words::{push_name_word, push_number_word};
use mj_schema::{Schema, StructRow, VersionRow};
use mojom_print::push_text;
use std::alloc::AllocError;

/// Writes a version.
#[tactic(auto, unfolding(crate::specs::Listing::version_line))]
fn push_version(out: &mut Vec<u8>, row: VersionRow) -> Result<(), AllocError>
    ensures { OnOk result (out.new.items ≡ out.old.items ++ version_line row) }
{
    push_text(out, "  version")?;
    push_number_word(out, row.version)?;
    push_number_word(out, row.fields)?;
    push_number_word(out, row.bytes)?;
    push_text(out, "\n")
}

/// Writes the versions.
fn push_versions(out: &mut Vec<u8>, rows: &[VersionRow]) -> Result<(), AllocError>
    ensures { OnOk result (out.new.items ≡ out.old.items ++ flat_map version_line rows.now) }
{
    for row in rows {
        push_version(out, *row)?;
    }
    Ok(())
}

/// Writes a struct.
#[tactic(auto, unfolding(crate::specs::Listing::struct_text))]
pub fn push_struct(out: &mut Vec<u8>, schema: &Schema, row: &StructRow) -> Result<(), AllocError>
    ensures { OnOk result (out.new.items ≡ out.old.items ++ struct_text schema.now row.now) }
{
    push_text(out, "struct")?;
    push_name_word(out, &row.name)?;
    push_text(out, "\n")?;
    push_fields(out, schema, row.fields.as_slice())?;
    push_versions(out, row.versions.as_slice())
}
