//! How long values take to become messages.

ghost use Rattle.std.specs.Prelude.{IfSome};
ghost use Rattle.wire_encoder.specs.Prepared.{HasTarget};

use crate::timing::{ROUNDS, least, now};
use mj_schema::Schema;
use std::alloc::{AllocError, Global};
use std::io;
use std::time::{CpuClock, Duration};
use wire_encoder::{Head, Prepared, prepare, seal};
use wire_model::{MessageSide, Target, Value};

/// The request of the first method of the first interface.
pub fn target_of(schema: &Schema) -> Option<Target>
    ensures { IfSome result (HasTarget schema.now) }
{
    let _method = schema.method(0, 0)?;
    Some(Target {
        interface: 0,
        method: 0,
        side: MessageSide::Request,
    })
}

/// The message of a value with this moment, if any, and the value again; none where it is refused.
fn encode(
    alloc: Global,
    schema: &Schema,
    target: Target,
    moment: Option<i64>,
    value: Value,
) -> Result<Option<(Vec<u8>, Value)>, AllocError>
    requires { HasTarget schema.now target }
{
    let Ok(prepared) = prepare(alloc, schema, target, value) else {
        return Ok(None);
    };
    if prepared.endpoints.len() > 0 {
        return Ok(None);
    }
    let head = Head {
        interface_id: 0,
        request_id: 0,
        moment,
        ids: &[],
    };
    let bytes = seal(alloc, &prepared, &head)?;
    let Prepared { value, .. } = prepared;
    Ok(Some((bytes, value)))
}

/// The last message of so many encodings of a value, and the value again; none where it is refused.
fn encode_times(
    alloc: Global,
    schema: &Schema,
    target: Target,
    moment: Option<i64>,
    value: Value,
    times: u64,
) -> Result<Option<(Vec<u8>, Value)>, AllocError>
    requires { HasTarget schema.now target }
{
    let mut last = Vec::new(alloc);
    let mut value = value;
    for _ in 0..times {
        match encode(alloc, schema, target, moment, value)? {
            Some((bytes, again)) => {
                last = bytes;
                value = again;
            }
            None => return Ok(None),
        }
    }
    Ok(Some((last, value)))
}

/// The least time of so many encodings of a value, and its message; none where it is refused.
pub fn time_encode<R: AllocGlobal + CpuClock>(
    rt: &R,
    schema: &Schema,
    target: Target,
    moment: Option<i64>,
    value: Value,
    times: u64,
) -> io::Result<Option<(Vec<u8>, Option<Duration>)>>
    requires { HasTarget schema.now target }
{
    let mut best = None;
    let mut last = Vec::new(rt.alloc());
    let mut value = value;
    for _ in 0..ROUNDS {
        let start = now(rt)?;
        let Some((bytes, again)) = encode_times(rt.alloc(), schema, target, moment, value, times)?
        else {
            return Ok(None);
        };
        best = least(best, start, now(rt)?);
        last = bytes;
        value = again;
    }
    Ok(Some((last, best)))
}
