//! Does the checks that the words name, one behind the other, each with the words behind its name. They are one
//! program, since the gate compiles all that a program stands on twice for each.
#![tactic(auto)]

use anyhow::Result;
use std::env::Env;
use std::io::{ErrorKind, Print};
use std::process::ExitCode;
use std::sync::Wait;
use std::thread::Threads;
use std::time::{Clock, CpuClock};
use std::{env, io};

/// A check, of the library of its name; the one of threads is of check_runs.
#[derive(Clone, Copy)]
enum Check {
    Names,
    Layouts,
    Messages,
    Compat,
    Runs,
    Audits,
    Cores,
    Hostile,
    Threads,
    Callers,
    Benchmarks,
}

impl Check {
    /// The check of a name; none where there is none.
    fn named(word: &str) -> Option<Check> {
        match word {
            "check_names" => Some(Check::Names),
            "check_layouts" => Some(Check::Layouts),
            "check_messages" => Some(Check::Messages),
            "check_compat" => Some(Check::Compat),
            "check_runs" => Some(Check::Runs),
            "check_audits" => Some(Check::Audits),
            "check_cores" => Some(Check::Cores),
            "check_hostile" => Some(Check::Hostile),
            "check_threads" => Some(Check::Threads),
            "callers" => Some(Check::Callers),
            "benchmarks" => Some(Check::Benchmarks),
            _ => None,
        }
    }
}

/// The words behind the program's name.
fn given_words<R: Env + AllocGlobal>(rt: &R) -> io::Result<Vec<String>> {
    let mut words = Vec::new(rt.alloc());
    for word in env::args(rt)?.skip(1) {
        if words.push(word).is_err() {
            return Err(io::Error::from(ErrorKind::OutOfMemory));
        }
    }
    Ok(words)
}

/// Of the words behind a check's name those that are for it: the ones before the next name.
fn own_words(behind: &[String]) -> &[String] {
    let next = behind
        .iter()
        .position(|word| Check::named(word.as_str()).is_some());
    match next {
        Some(place) => behind.get(..place).unwrap_or(behind),
        None => behind,
    }
}

/// Does a check, but for callers, with the words for it; whether all was right.
fn compare<R: std::rt::Files + Print + AllocGlobal + CpuClock + Clock + Wait + Threads + Sync>(
    rt: &R,
    check: Check,
    words: &[String],
) -> io::Result<bool> {
    match check {
        Check::Names => check_names::run(rt, words),
        Check::Layouts => check_layouts::run(rt, words),
        Check::Messages => check_messages::run(rt, words),
        Check::Compat => check_compat::run(rt, words),
        Check::Runs => check_runs::run(rt, words),
        Check::Audits => check_audits::run(rt, words),
        Check::Cores => check_cores::run(rt),
        Check::Hostile => check_hostile::run(rt, words),
        Check::Threads => check_runs::run_threads(rt, words),
        Check::Callers => Ok(true),
        Check::Benchmarks => {
            benchmarks::run(rt, words)?;
            Ok(true)
        }
    }
}

/// Does a check with the words for it; whether all was right. The errors of callers are of another type than all others.
fn do_check<R: std::rt::Files + Print + AllocGlobal + CpuClock + Clock + Wait + Threads + Sync>(
    rt: &R,
    check: Check,
    words: &[String],
) -> Result<bool> {
    if matches!(check, Check::Callers) {
        callers::run(rt)?;
        return Ok(true);
    }
    Ok(compare(rt, check, words)?)
}

/// Does the checks that words name, and prints the name of each before it; whether all was right.
fn do_checks<R: std::rt::Files + Print + AllocGlobal + CpuClock + Clock + Wait + Threads + Sync>(
    rt: &R,
    words: &[String],
) -> Result<bool> {
    let mut is_right = true;
    for (place, word) in words.iter().enumerate() {
        let name = word.as_str();
        if let Some(check) = Check::named(name) {
            println!(rt; "{name}:")?;
            let behind = words.get(place.saturating_add(1)..).unwrap_or(words);
            is_right = do_check(rt, check, own_words(behind))? && is_right;
        }
    }
    Ok(is_right)
}

/// Does the checks that words name, the first of which is to be a check's; whether all was right.
fn run<R: std::rt::Files + Print + AllocGlobal + CpuClock + Clock + Wait + Threads + Sync>(
    rt: &R,
    words: &[String],
) -> Result<bool> {
    let [first, ..] = words else {
        println!(rt; "usage: checks CHECK WORD.. CHECK WORD..")?;
        return Ok(false);
    };
    if Check::named(first.as_str()).is_none() {
        println!(rt; "{}: it is no check", first.as_str())?;
        return Ok(false);
    }
    do_checks(rt, words)
}

fn main(rt: HostRuntime) -> Result<ExitCode> {
    let words = given_words(&rt)?;
    if run(&rt, words.as_slice())? {
        return Ok(ExitCode::SUCCESS);
    }
    Ok(ExitCode::FAILURE)
}
