//! How long a message takes: a request of the first interface of a file.

use crate::files::schema_at;
use crate::sealing::{target_of, time_encode};
use crate::timing::{ROUNDS, least, mebibytes_a_second, nanoseconds_each, now};
use crate::viewing::{Way, time_views};
use check_files::bytes_of;
use message_validator::{Checked, check};
use mj_base::limits::MAX_PAYLOAD_BYTES;
use mj_schema::Schema;
use std::alloc::{AllocError, Global};
use std::io;
use std::io::Print;
use std::time::{CpuClock, Duration};
use wire_decoder::decode;
use wire_model::{Expected, MessageSide, Value};

/// What a message is.
const EXPECTED: Expected = Expected {
    interface: 0,
    side: MessageSide::Request,
};

/// The bytes that a message has at most.
const MOST_MESSAGE_BYTES: u64 = 2 * MAX_PAYLOAD_BYTES;

/// How many bytes are gone over in a round, at least.
const BYTES_A_ROUND: u64 = 20_000_000;

/// How many of so many checks of a message find that it stands.
fn standing(schema: &Schema, bytes: &[u8], times: u64) -> u64 {
    let mut stand = 0u64;
    for _ in 0..times {
        if check(schema, EXPECTED, bytes, 0).is_ok() {
            stand = stand.saturating_add(1);
        }
    }
    stand
}

/// The least time of so many checks of a message; none where they don't all say the same.
fn time_check<R: CpuClock>(
    rt: &R,
    schema: &Schema,
    bytes: &[u8],
    times: u64,
) -> io::Result<Option<Duration>> {
    let mut best = None;
    for _ in 0..ROUNDS {
        let start = now(rt)?;
        let stand = standing(schema, bytes, times);
        if stand > 0 && stand < times {
            return Ok(None);
        }
        best = least(best, start, now(rt)?);
    }
    Ok(best)
}

/// Reads the value of a message so many times.
fn decode_times(alloc: Global, checked: &Checked<'_>, times: u64) -> Result<(), AllocError> {
    for _ in 0..times {
        let _value = decode(alloc, checked)?;
    }
    Ok(())
}

/// The least time of so many readings of a message's value.
fn time_decode<R: AllocGlobal + CpuClock>(
    rt: &R,
    checked: &Checked<'_>,
    times: u64,
) -> io::Result<Option<Duration>> {
    let mut best = None;
    for _ in 0..ROUNDS {
        let start = now(rt)?;
        decode_times(rt.alloc(), checked, times)?;
        best = least(best, start, now(rt)?);
    }
    Ok(best)
}

/// Prints what a message of so many bytes takes, and how many bytes a second that makes.
fn show<R: Print>(
    rt: &R,
    what: &str,
    best: Option<Duration>,
    times: u64,
    bytes: u64,
) -> io::Result<()> {
    println!(rt;
        "{bytes} bytes {what} in {} ns, {} MiB/s",
        nanoseconds_each(best, times),
        mebibytes_a_second(best, times.saturating_mul(bytes))
    )
}

/// Times the encoding of a value with this moment, if any, and says so where other bytes come of it than are wanted.
fn time_encoding<R: Print + AllocGlobal + CpuClock>(
    rt: &R,
    schema: &Schema,
    moment: Option<i64>,
    value: Value,
    wanted: &[u8],
    times: u64,
) -> io::Result<()> {
    let Some(target) = target_of(schema) else {
        return println!(rt; "no method of the message");
    };
    let Some((bytes, best)) = time_encode(rt, schema, target, moment, value, times)? else {
        return println!(rt; "the value of the message is refused");
    };
    if bytes.as_slice() != wanted {
        println!(rt; "other bytes come of the value of the message")?;
    }
    show(rt, "encoded", best, times, bytes.len() as u64)
}

/// Prints how long a message takes.
fn time<R: Print + AllocGlobal + CpuClock>(
    rt: &R,
    schema: &Schema,
    bytes: &[u8],
) -> io::Result<()> {
    let size = bytes.len() as u64;
    let times = BYTES_A_ROUND
        .checked_div(size)
        .unwrap_or(0)
        .saturating_add(1);
    let best = time_check(rt, schema, bytes, times)?;
    show(rt, "checked", best, times, size)?;
    let checked = match check(schema, EXPECTED, bytes, 0) {
        Ok(checked) => checked,
        Err(fault) => return println!(rt; "refused at {}", fault.at),
    };
    let best = time_views(rt, &checked, times, Way::Parts)?;
    show(rt, "viewed", best, times, size)?;
    let best = time_views(rt, &checked, times, Way::Batch)?;
    show(rt, "viewed as a batch", best, times, size)?;
    let best = time_decode(rt, &checked, times)?;
    show(rt, "decoded", best, times, size)?;
    let value = decode(rt.alloc(), &checked)?;
    time_encoding(rt, schema, checked.moment, value, bytes, times)
}

/// Times the message of a file, over the schema of another.
pub fn time_files<R: std::rt::Files + Print + AllocGlobal + CpuClock>(
    rt: &R,
    mojom: &str,
    message: &str,
) -> io::Result<()> {
    let Some(schema) = schema_at(rt, mojom)? else {
        return println!(rt; "{mojom}: no schema");
    };
    let Some(bytes) = bytes_of(rt, message, MOST_MESSAGE_BYTES) else {
        return println!(rt; "{message}: it can't be read");
    };
    time(rt, &schema, &bytes)
}
