//! Rows of a schema by kinds, and the newest version of a struct.

ghost use Rattle.std.specs.Prelude.{◌≡◌, slice_get, IfSome, Some};
ghost use Rattle.std.specs.Option.{option_copied};
ghost use Rattle.mj_schema.specs.KindTrees.{kind_view};
ghost use Rattle.wire_model.specs.Fits.{IsGoodRow};
ghost use Rattle.wire_model.specs.Slots.{found_size, found_version};
ghost use Rattle.wire_model.specs.Rows.{member_kind};

use mj_schema::{Kind, KindNode, Schema, StructRow};
use schema_rows::{find_struct, find_union, kind_under, newest_row};

/// The row of a struct, whose newest version has all fields; none exactly where there is none of that
/// number.
pub(crate) fn good_struct(schema: &Schema, number: u32) -> Option<&StructRow>
    ensures found { option_copied result ≡ slice_get schema.now.structs number }
    ensures good { IfSome result (λ row. IsGoodRow row.now) }
{
    find_struct(schema, number)
}

/// The kind that a union of this kind holds under a tag; none where it lacks the tag, and where the
/// kind is no union.
pub fn member_kind<'a>(schema: &'a Schema, kind: &KindNode, tag: u32) -> Option<&'a Kind>
    ensures { option_copied result ≡ member_kind schema.now (kind_view kind.now) tag }
{
    match kind {
        KindNode::Union { number, .. } => match find_union(schema, *number) {
            Some(row) => kind_under(row, tag),
            None => None,
        },
        _ => None,
    }
}

/// The number of a struct's newest version.
pub(crate) fn newest_version(row: &StructRow) -> u32
    ensures { result ≡ found_version (Some row.now) }
{
    schema_rows::newest_version(row.versions.as_slice())
}

/// How many bytes a struct's newest version takes, with its two numbers.
pub(crate) fn newest_size(row: &StructRow) -> u32
    ensures { result ≡ found_size (Some row.now) }
{
    newest_row(row.versions.as_slice()).bytes
}
