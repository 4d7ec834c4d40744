//! A value from its text.

ghost use Rattle.std.specs.Prelude.{◌≡◌, ◌≤◌, length};
ghost use Rattle.wire_model.specs.Trees.{view};
ghost use Rattle.byte_rules.specs.steps.Reading.{verdict};
ghost use Rattle.value_text.specs.Brackets.{MAX_BRACKETS};
ghost use Rattle.value_text.specs.Rules.{value};
ghost use Rattle.value_text.specs.Texts.{Tells};
ghost use Rattle.value_text.specs.steps.Reading.{Agrees};

use crate::text_error::TextError;
use crate::values::value;
use byte_rules::Stop;
use mj_base::limits::MAX_BRACKETS;
use mj_schema::{Kind, Schema};
use std::alloc::Global;
use wire_model::Value;

/// What the reading of a kind says of all the bytes.
#[tactic(auto, unfolding(crate::specs::Rules::value))]
fn judge(alloc: Global, schema: &Schema, kind: &Kind, bytes: &[u8]) -> Result<Value, TextError>
    ensures { Agrees result (verdict (length bytes.now) ((value schema.now MAX_BRACKETS kind.now).read bytes.now)) }
{
    match value(
        alloc,
        schema,
        MAX_BRACKETS,
        kind.node(),
        kind.has_flag(),
        bytes,
    ) {
        Ok((value, rest)) => {
            if rest.is_empty() {
                return Ok(value);
            }
            let at = (bytes.len() - rest.len()) as u64;
            Err(TextError::BadText { at })
        }
        Err(Stop::Left(left)) => {
            let at = (bytes.len() - left) as u64;
            Err(TextError::BadText { at })
        }
        Err(Stop::Memory) => Err(TextError::Memory),
    }
}

/// The value of the kind that the bytes spell, and they spell no other. `BadText` is at the first
/// byte with which no text of the kind goes on, at the end the length. A text has at most 512
/// brackets open at once. Takes time in proportion to the bytes, where an enum's numbers and a union's tags
/// go up; else each of them may be compared with all of the schema's there.
#[tactic(auto, using(crate::proofs::Whole::tells_by))]
pub fn read_value(
    alloc: Global,
    schema: &Schema,
    kind: &Kind,
    bytes: &[u8],
) -> Result<Value, TextError>
    ensures { Tells (value schema.now MAX_BRACKETS kind.now) bytes.now result }
{
    judge(alloc, schema, kind, bytes)
}
