//! Runs the product on the cases of the files that the words name, over memory, and says which
//! answers differ. `docs/conformance.md` has the form of the files.
#![tactic(auto)]

mod again;
mod answer;
mod audited;
mod case;
mod lines;
mod read_back;
mod reader;

use crate::case::{Case, CaseError};
use mj_io::{Fetched, Files, RealFiles};
use std::alloc::Global;
use std::collections::HashSet;
use std::env::Env;
use std::io::Print;
use std::process::ExitCode;
use std::sync::Wait;
use std::thread::Threads;
use std::{env, io};

/// The bytes that a file of cases has at most.
const MOST_BYTES: u64 = 16777216;

/// How many cases went which way.
#[derive(Clone, Copy, Default)]
struct Tally {
    passed: u64,
    failed: u64,
    /// How many printed texts were printed again.
    again: u64,
    /// How many printed histories were read back.
    read_back: u64,
    /// How many were audited.
    audited: u64,
}

/// The cases of a file.
fn cases_of<F: Files>(alloc: Global, files: &mut F, name: &str) -> Result<Vec<Case>, CaseError> {
    let mut bytes = Vec::new(alloc);
    match files.fetch(alloc, name, MOST_BYTES, &mut bytes) {
        Ok(Fetched::Whole) => {}
        Ok(Fetched::Longer) | Err(_) => return Err(CaseError::NoFile),
    }
    match str::from_utf8(bytes.as_slice()) {
        Ok(text) => reader::read_cases(alloc, text),
        Err(_) => Err(CaseError::NotText),
    }
}

/// Notes the name of a case; whether no case before has it. Prints one that was there.
fn note_name<R: Print + AllocGlobal>(
    rt: &R,
    names: &mut HashSet<String>,
    name: &str,
) -> io::Result<bool> {
    let is_new = names.insert(String::from_str(rt.alloc(), name)?)?;
    if !is_new {
        println!(rt; "{name}: a case before has this name")?;
    }
    Ok(is_new)
}

/// Runs a case; whether its answer is the one that is wanted. Prints how it differs.
fn run_case<R: Print + AllocGlobal + Wait + Threads + Sync>(
    rt: &R,
    case: Case,
) -> io::Result<bool> {
    let Case {
        name,
        words,
        files,
        failing,
        wanted,
    } = case;
    let answer = answer::run(rt, rt.alloc(), words.as_slice(), files, failing)?;
    if answer.is_wanted(&wanted) {
        return Ok(true);
    }
    println!(rt; "{name}")?;
    answer.print_against(rt, &wanted)?;
    Ok(false)
}

/// Reads back the history that a case wants to be printed; whether it is that history again.
fn read_history_back<R: Print + AllocGlobal>(
    rt: &R,
    case: &Case,
    tally: &mut Tally,
) -> io::Result<bool> {
    let Some(is_read_back) = read_back::is_read_back(rt.alloc(), case)? else {
        return Ok(true);
    };
    if is_read_back {
        tally.read_back = tally.read_back.saturating_add(1);
    } else {
        println!(rt; "{}: the text isn't read back", case.name)?;
    }
    Ok(is_read_back)
}

/// Runs the cases, and prints how those that fail differ. Each has a name of its own.
fn run_cases<R: Print + AllocGlobal + Wait + Threads + Sync>(
    rt: &R,
    cases: Vec<Case>,
    names: &mut HashSet<String>,
    tally: &mut Tally,
) -> io::Result<()> {
    let alloc = rt.alloc();
    for case in cases {
        let mut passed = note_name(rt, names, case.name.as_str())?;
        passed = read_history_back(rt, &case, tally)? && passed;
        if let Some(again) = again::printed_again(alloc, &case)? {
            tally.again = tally.again.saturating_add(1);
            passed = run_case(rt, again)? && passed;
        }
        if let Some(audit) = audited::audited(alloc, &case)? {
            tally.audited = tally.audited.saturating_add(1);
            passed = run_case(rt, audit)? && passed;
        }
        if run_case(rt, case)? && passed {
            tally.passed = tally.passed.saturating_add(1);
        } else {
            tally.failed = tally.failed.saturating_add(1);
        }
    }
    Ok(())
}

/// Runs the cases of each file that the words name.
fn run_files<R: std::rt::Files + Env + Print + AllocGlobal + Wait + Threads + Sync>(
    rt: &R,
) -> io::Result<Tally> {
    let alloc = rt.alloc();
    let mut files = RealFiles::new(rt);
    let mut names = HashSet::new(alloc);
    let mut tally = Tally::default();
    for name in env::args(rt)?.skip(1) {
        match cases_of(alloc, &mut files, name.as_str()) {
            Ok(cases) => run_cases(rt, cases, &mut names, &mut tally)?,
            Err(error) => {
                tally.failed = tally.failed.saturating_add(1);
                println!(rt; "{name}: {error}")?;
            }
        }
    }
    Ok(tally)
}

fn main(rt: HostRuntime) -> io::Result<ExitCode> {
    let tally = run_files(&rt)?;
    println!(rt; "{} printed texts printed again", tally.again)?;
    println!(rt; "{} printed histories read back", tally.read_back)?;
    println!(rt; "{} printed histories audited", tally.audited)?;
    println!(rt; "{} passed, {} failed", tally.passed, tally.failed)?;
    if tally.failed > 0 {
        return Ok(ExitCode::FAILURE);
    }
    Ok(ExitCode::SUCCESS)
}
