//! Bytes in place of a seed's, judged by the proved code beside the literal readings, or by the proved code alone.

use crate::messages::{check_alone, judge_message};
use crate::mojom::{compile_alone, judge_mojom};
use crate::scripts::{judge_script, read_alone};
use crate::seeds::{InputSort, Seed};
use crate::texts::{judge_history, judge_value, read_history_alone, read_value_alone};
use check_messages::compare::Verdict;
use mj_schema::Schema;
use std::alloc::{AllocError, Global};
use std::sync::Arc;

/// The schema that a seed is over; none where no Mojom file stands before it.
fn schema_of<'a>(schemas: &'a [Arc<Schema>], seed: &Seed) -> Option<&'a Arc<Schema>> {
    let place = seed.over.checked_sub(1)?;
    schemas.get(place)
}

/// Compares what comes of bytes in place of a seed's; scripts are run in an order.
pub fn judge(
    alloc: Global,
    schemas: &[Arc<Schema>],
    seed: &Seed,
    bytes: &[u8],
    order: u64,
) -> Result<Verdict, AllocError> {
    let Some(schema) = schema_of(schemas, seed) else {
        return judge_mojom(alloc, bytes);
    };
    let words = seed.words.as_str();
    match seed.sort {
        InputSort::Over | InputSort::Mojom => judge_mojom(alloc, bytes),
        InputSort::Message => judge_message(alloc, schema, words, bytes),
        InputSort::Script => judge_script(alloc, schema, bytes, order),
        InputSort::Value => judge_value(alloc, schema, words, bytes),
        InputSort::History => judge_history(alloc, schema, bytes),
    }
}

/// Lets the proved code alone judge them.
pub fn judge_alone(
    alloc: Global,
    schemas: &[Arc<Schema>],
    seed: &Seed,
    bytes: &[u8],
) -> Result<(), AllocError> {
    let Some(schema) = schema_of(schemas, seed) else {
        return compile_alone(alloc, bytes);
    };
    let words = seed.words.as_str();
    match seed.sort {
        InputSort::Over | InputSort::Mojom => return compile_alone(alloc, bytes),
        InputSort::Message => check_alone(schema, words, bytes),
        InputSort::Script => read_alone(alloc, schema, bytes),
        InputSort::Value => read_value_alone(alloc, schema, words, bytes),
        InputSort::History => read_history_alone(alloc, schema, bytes),
    }
    Ok(())
}
