//! What a field reads as that the version of a struct lacks.

ghost use Rattle.std.specs.Prelude.{◌≡◌, IsTrue, true, None};
ghost use Rattle.std.specs.Option.{option_map, option_map_or};
ghost use Rattle.std.specs.Str.{is_utf8};
ghost use Rattle.mj_schema.specs.KindTrees.{kind_view};
ghost use Rattle.mj_schema.specs.Sound.{is_text};
ghost use Rattle.wire_model.specs.Absent.{literal_value, absent_kind, absent_field};
ghost use Rattle.wire_view.specs.PartValues.{tree_in, object_in};
ghost use Rattle.wire_view.specs.Parts.{number_of, text_of};
ghost use Rattle.wire_view.specs.Strings.{bytes_in};

use crate::parts::Part;
use crate::texts::Utf8;
use mj_base::Items;
use mj_schema::{FieldRow, KindNode, Literal, Schema};
use schema_rows::{enum_number, find_enum};

/// A string that a file has written out.
fn text_of(bytes: &Items<u8>) -> Utf8<'_>
    requires { is_utf8 bytes.now ≡ true }
    ensures { result.bytes.now ≡ bytes.now }
{
    Utf8::new(bytes.as_slice())
}

/// The value that a file has written out.
fn literal_value<'a>(literal: &'a Literal) -> Part<'a>
    requires { IsTrue (is_text literal.now) }
    ensures value { tree_in result ≡ literal_value literal.now }
    ensures leaf { object_in result ≡ None }
{
    match literal {
        Literal::Bool(bool) => Part::Bool(*bool),
        Literal::Whole(number) => Part::Whole(*number),
        Literal::Text(bytes) => Part::Text(text_of(bytes)),
    }
}

/// What a kind reads as.
fn absent_kind<'a>(schema: &Schema, kind: &'a KindNode) -> Part<'a>
    ensures value { tree_in result ≡ absent_kind schema.now (kind_view kind.now) }
    ensures leaf { object_in result ≡ None }
{
    match kind {
        KindNode::Bool { nullable: false } => Part::Bool(false),
        KindNode::Int {
            nullable: false,
            ..
        } => Part::Whole(0),
        KindNode::Enum {
            number,
            nullable: false,
        } => {
            let number = enum_number(find_enum(schema, *number));
            Part::Whole(i128::from(number))
        }
        _ => Part::Null,
    }
}

/// What a field reads as: its default, or else what its kind does.
pub fn absent_field<'a>(schema: &Schema, field: &'a FieldRow) -> Part<'a>
    requires { IsTrue (option_map_or is_text field.now.default true) }
    ensures value { tree_in result ≡ absent_field schema.now field.now.default field.now.kind }
    ensures leaf { object_in result ≡ None }
{
    match &field.default {
        Some(literal) => literal_value(literal),
        None => absent_kind(schema, field.kind.node()),
    }
}

/// The number that a field reads as; none where it reads as something else. It stands by itself, so that a
/// getter that meets no such field has no room to make for a part.
#[inline(never)]
pub fn absent_number(schema: &Schema, field: &FieldRow) -> Option<i128>
    requires { IsTrue (option_map_or is_text field.now.default true) }
    ensures { result ≡ number_of (absent_field schema.now field.now.default field.now.kind) }
{
    absent_field(schema, field).as_number()
}

/// The string that a field reads as; none where it reads as something else. It stands by itself, as
/// `absent_number` does.
#[inline(never)]
pub fn absent_string<'a>(schema: &Schema, field: &'a FieldRow) -> Option<Utf8<'a>>
    requires { IsTrue (option_map_or is_text field.now.default true) }
    ensures { option_map bytes_in result ≡ text_of (absent_field schema.now field.now.default field.now.kind) }
{
    absent_field(schema, field).as_string()
}
