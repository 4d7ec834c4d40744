//! Values without brackets.

ghost use Rattle.std.specs.Prelude.{◌≡◌, Ok, Some, None, true, false, ◌^◌, ◌-◌, slice_get};
ghost use Rattle.wire_model.specs.Trees.{view};
ghost use Rattle.wire_model.specs.Trees as values;
ghost use Rattle.byte_rules.specs.Lang.{as_value, closed, ◌then◌, ◌▸◌};
ghost use Rattle.byte_rules.specs.Reading.{Gives};
ghost use Rattle.value_text.specs.Characters.{text};
ghost use Rattle.value_text.specs.Numbers.{whole, index, number_of, fields_tags, tag_of};
ghost use Rattle.value_text.specs.Rules.{boolean, null_word};
ghost use Rattle.value_text.specs.Signs.{percent, close_angle, at_sign, caret};

use crate::characters::text;
use crate::members::{known_member, known_tag, nearest_member, nearest_tag};
use crate::numbers::{index, integer, whole};
use byte_rules::{Stop, expect, is_next};
use mj_schema::{Schema, UnionRow, Width};
use schema_rows::find_enum;
use std::alloc::Global;
use wire_model::Value;

/// `null`, and the bytes after it.
#[tactic(auto, unfolding(crate::specs::Rules::null_word))]
pub fn null(bytes: &[u8]) -> Result<(Value, &[u8]), Stop>
    ensures { Gives (λ x. (view x.0, x.1.now)) result (null_word.read bytes.now) }
{
    let rest = expect(bytes, b'n')?;
    let rest = expect(rest, b'u')?;
    let rest = expect(rest, b'l')?;
    let rest = expect(rest, b'l')?;
    Ok((Value::Null, rest))
}

/// `true` or `false`, and the bytes after it.
#[tactic(auto, unfolding(crate::specs::Rules::boolean))]
pub fn boolean(bytes: &[u8]) -> Result<(Value, &[u8]), Stop>
    ensures { Gives (λ x. (view x.0, x.1.now)) result (boolean.read bytes.now) }
{
    if is_next(bytes, b't') {
        let rest = expect(bytes, b't')?;
        let rest = expect(rest, b'r')?;
        let rest = expect(rest, b'u')?;
        let rest = expect(rest, b'e')?;
        return Ok((Value::Bool(true), rest));
    }
    let rest = expect(bytes, b'f')?;
    let rest = expect(rest, b'a')?;
    let rest = expect(rest, b'l')?;
    let rest = expect(rest, b's')?;
    let rest = expect(rest, b'e')?;
    Ok((Value::Bool(false), rest))
}

/// An integer of so many bits, and the bytes after it.
pub fn int(width: Width, signed: bool, bytes: &[u8]) -> Result<(Value, &[u8]), Stop>
    ensures { Gives (λ x. (view x.0, x.1.now)) result ((as_value values.Whole (whole width signed)).read bytes.now) }
{
    let (number, rest) = whole(width, signed, bytes)?;
    Ok((Value::Whole(number), rest))
}

/// The number of a value of an enum, and the bytes after it. Where no member has the number that stands
/// there, no text goes on, so the members' words are made at most once a text.
fn enum_number<'a>(
    alloc: Global,
    schema: &Schema,
    number: u32,
    bytes: &'a [u8],
) -> Result<(i128, &'a [u8]), Stop>
    ensures { Gives (λ x. (x.0, x.1.now)) result ((number_of (slice_get schema.now.enums number)).read bytes.now) }
{
    match find_enum(schema, number) {
        Some(row) => {
            if row.extensible {
                return integer(1 << 31, (1 << 31) - 1, bytes);
            }
            match known_member(&row.members, bytes) {
                Some(known) => Ok(known),
                None => nearest_member(alloc, row.members.as_slice(), bytes),
            }
        }
        None => integer(1 << 31, (1 << 31) - 1, bytes),
    }
}

/// A value of an enum, and the bytes after it.
pub fn enum_value<'a>(
    alloc: Global,
    schema: &Schema,
    number: u32,
    bytes: &'a [u8],
) -> Result<(Value, &'a [u8]), Stop>
    ensures { Gives (λ x. (view x.0, x.1.now)) result ((as_value values.Whole (number_of (slice_get schema.now.enums number))).read bytes.now) }
{
    let (number, rest) = enum_number(alloc, schema, number, bytes)?;
    Ok((Value::Whole(number), rest))
}

/// A string, and the bytes after it.
pub fn string(alloc: Global, bytes: &[u8]) -> Result<(Value, &[u8]), Stop>
    ensures { Gives (λ x. (view x.0, x.1.now)) result ((as_value values.Text text).read bytes.now) }
{
    let (text, rest) = text(alloc, bytes)?;
    Ok((Value::Text(text), rest))
}

/// A handle or a receiver, and the bytes after it.
pub fn handle(bytes: &[u8]) -> Result<(Value, &[u8]), Stop>
    ensures { Gives (λ x. (view x.0, x.1.now)) result ((percent ▸ as_value values.Handle index).read bytes.now) }
{
    let rest = expect(bytes, b'%')?;
    let (index, rest) = index(rest)?;
    Ok((Value::Handle(index), rest))
}

/// A remote, and the bytes after it.
pub fn remote(bytes: &[u8]) -> Result<(Value, &[u8]), Stop>
    ensures { Gives (λ x. (view x.0, x.1.now)) result ((percent ▸ index then λ i. at_sign ▸ as_value (values.Remote i) index).read bytes.now) }
{
    let rest = expect(bytes, b'%')?;
    let (number, rest) = index(rest)?;
    let rest = expect(rest, b'@')?;
    let (version, rest) = index(rest)?;
    let value = Value::Remote {
        index: number,
        version,
    };
    Ok((value, rest))
}

/// The receiver of an associated endpoint, and the bytes after it.
pub fn endpoint(bytes: &[u8]) -> Result<(Value, &[u8]), Stop>
    ensures { Gives (λ x. (view x.0, x.1.now)) result ((caret ▸ as_value values.Endpoint index).read bytes.now) }
{
    let rest = expect(bytes, b'^')?;
    let (index, rest) = index(rest)?;
    Ok((Value::Endpoint(index), rest))
}

/// The remote of an associated endpoint, and the bytes after it.
pub fn endpoint_remote(bytes: &[u8]) -> Result<(Value, &[u8]), Stop>
    ensures { Gives (λ x. (view x.0, x.1.now)) result ((caret ▸ index then λ i. at_sign ▸ as_value (values.EndpointRemote i) index).read bytes.now) }
{
    let rest = expect(bytes, b'^')?;
    let (number, rest) = index(rest)?;
    let rest = expect(rest, b'@')?;
    let (version, rest) = index(rest)?;
    let value = Value::EndpointRemote {
        index: number,
        version,
    };
    Ok((value, rest))
}

/// A tag of the union of this number, whose row this is, and the bytes after it. Where no field has the
/// tag that stands there, no text goes on, so the tags' words are made at most once a text.
pub fn tag<'a>(
    alloc: Global,
    schema: &Schema,
    number: u32,
    row: &UnionRow,
    bytes: &'a [u8],
) -> Result<(u32, &'a [u8]), Stop>
    requires { slice_get schema.now.unions number ≡ Some row.now }
    ensures { Gives (λ x. (x.0, x.1.now)) result ((tag_of row.now.extensible (fields_tags row.now.fields)).read bytes.now) }
{
    if row.extensible {
        return index(bytes);
    }
    match known_tag(schema, number, bytes) {
        Some(known) => Ok(known),
        None => nearest_tag(alloc, row.fields.as_slice(), bytes),
    }
}

/// The bracket behind a tag that the union lacks, and the bytes after it.
pub fn unknown(tag: u32, bytes: &[u8]) -> Result<(Value, &[u8]), Stop>
    ensures { Gives (λ x. (view x.0, x.1.now)) result ((closed close_angle (values.Unknown tag)).read bytes.now) }
{
    let rest = expect(bytes, b'>')?;
    Ok((Value::Unknown(tag), rest))
}
