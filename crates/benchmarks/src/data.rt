//! How long a data pipe takes to be filled and drained.

use crate::timing::{ROUNDS, least, mebibytes_a_second, now};
use data_pipe::DataPipe;
use std::alloc::Global;
use std::io;
use std::io::Print;
use std::time::{CpuClock, Duration};

/// How many bytes the data pipe holds at most.
const CAPACITY: u32 = 65_536;

/// How often it is filled and drained in a round.
const TURNS: u32 = 256;

/// Puts a piece in so many times.
fn fill(pipe: &mut DataPipe, piece: &[u8], times: u32) {
    for _ in 0..times {
        let _put = pipe.put(piece, true, false);
    }
}

/// Gets so many bytes out so many times.
fn drain(alloc: Global, pipe: &mut DataPipe, size: u32, times: u32) {
    for _ in 0..times {
        let _bytes = pipe.get(alloc, size, true, false);
    }
}

/// The least times of filling and of draining by pieces of so many bytes, at most 4,096. The first piece
/// lies so that one wraps round in each turn.
fn time_pieces<R: AllocGlobal + CpuClock>(
    rt: &R,
    pipe: &mut DataPipe,
    size: u32,
) -> io::Result<(Duration, Duration)> {
    let alloc = rt.alloc();
    let bytes = [7; 4096];
    let piece = &bytes[..(size as usize).min(4096)];
    let times = CAPACITY.checked_div(size).unwrap_or(0);
    let mut filled = Duration::ZERO;
    let mut drained = Duration::ZERO;
    for _ in 0..TURNS {
        let start = now(rt)?;
        fill(pipe, piece, times);
        let middle = now(rt)?;
        drain(alloc, pipe, size, times);
        let end = now(rt)?;
        filled = filled.saturating_add(middle.saturating_sub(start));
        drained = drained.saturating_add(end.saturating_sub(middle));
    }
    Ok((filled, drained))
}

/// Prints how many bytes a second go in and come out by pieces of so many bytes.
fn time<R: Print + AllocGlobal + CpuClock>(
    rt: &R,
    pipe: &mut DataPipe,
    size: u32,
) -> io::Result<()> {
    let mut filled = None;
    let mut drained = None;
    for _ in 0..ROUNDS {
        let (put, got) = time_pieces(rt, pipe, size)?;
        filled = least(filled, Duration::ZERO, put);
        drained = least(drained, Duration::ZERO, got);
    }
    let bytes = u64::from(CAPACITY) * u64::from(TURNS);
    println!(rt;
        "pieces of {size} bytes: {} MiB a second go in, {} come out",
        mebibytes_a_second(filled, bytes),
        mebibytes_a_second(drained, bytes)
    )
}

/// Times a data pipe of 65,536 bytes, filled and drained by pieces of 1, 64 and 4,096 bytes.
pub fn time_all<R: Print + AllocGlobal + CpuClock>(rt: &R) -> io::Result<()> {
    let Ok(mut pipe) = DataPipe::new(rt.alloc(), CAPACITY) else {
        return println!(rt; "no memory for a data pipe");
    };
    fill(&mut pipe, b"seven b", 1);
    drain(rt.alloc(), &mut pipe, 7, 1);
    for size in [1, 64, 4096] {
        time(rt, &mut pipe, size)?;
    }
    Ok(())
}
