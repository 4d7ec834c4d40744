//! The least time of some rounds.

use std::io;
use std::time::{CpuClock, Duration};

/// How many rounds there are, of which the quickest counts.
pub const ROUNDS: u32 = 7;

/// The least of the times so far and that between two clocks.
pub fn least(best: Option<Duration>, start: Duration, end: Duration) -> Option<Duration> {
    let taken = end.saturating_sub(start);
    match best {
        Some(best) if best <= taken => Some(best),
        _ => Some(taken),
    }
}

/// The processor time so far.
pub fn now<R: CpuClock>(rt: &R) -> io::Result<Duration> {
    Ok(rt.thread_cpu_time()?)
}

/// The nanoseconds of one of so many.
pub fn nanoseconds_each(best: Option<Duration>, count: u64) -> u128 {
    best.unwrap_or(Duration::ZERO)
        .as_nanos()
        .checked_div(u128::from(count))
        .unwrap_or(0)
}

/// The mebibytes a second of so many bytes.
pub fn mebibytes_a_second(best: Option<Duration>, bytes: u64) -> u128 {
    let nanoseconds = best.unwrap_or(Duration::ZERO).as_nanos();
    u128::from(bytes)
        .saturating_mul(1_000_000_000)
        .checked_div(nanoseconds)
        .unwrap_or(0)
        / 1_048_576
}
