//! Times the packing of structs, data pipes, takes at ends with unread messages, the message of a file, and the run of a script, in processor
//! time; and turns of a lock, and runs with a thread for each sequence, by the clock. `tools/time_program` makes the files.
#![tactic(auto)]

mod data;
mod files;
mod packing;
mod running;
mod sealing;
mod threads;
mod timing;
mod turns;
mod unread;
mod viewing;
mod wire;

use std::io;
use std::io::Print;
use std::sync::Wait;
use std::thread::Threads;
use std::time::{Clock, CpuClock};

/// Says which words there are.
fn print_usage<R: Print>(rt: &R) -> io::Result<()> {
    println!(rt;
        "usage: benchmarks packing | data | turns | unread | wire MOJOM MESSAGE | run MOJOM SCRIPT | threads MOJOM SCRIPT"
    )
}

/// Times what the first word asks for, of the files that the words behind it name.
pub fn run<R: std::rt::Files + Print + AllocGlobal + CpuClock + Clock + Wait + Threads + Sync>(
    rt: &R,
    words: &[String],
) -> io::Result<()> {
    match words {
        [what] => match what.as_str() {
            "data" => data::time_all(rt),
            "packing" => packing::time_all(rt),
            "turns" => turns::time_all(rt),
            "unread" => unread::time_all(rt),
            _ => print_usage(rt),
        },
        [what, mojom, file] => match what.as_str() {
            "wire" => wire::time_files(rt, mojom.as_str(), file.as_str()),
            "run" => running::time_files(rt, mojom.as_str(), file.as_str()),
            "threads" => threads::time_files(rt, mojom.as_str(), file.as_str()),
            _ => print_usage(rt),
        },
        _ => print_usage(rt),
    }
}
