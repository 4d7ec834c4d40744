//! The sets of files that words ask for, each compared.

use crate::case::{Case, take_line};
use crate::compare::compare;
use crate::made::{made_sources, made_text};
use crate::tally::Tally;
use check_files::text_of;
use std::io;
use std::io::Print;

/// Compares the files of a case, and prints what is wrong.
fn compare_case<R: Print + AllocGlobal>(rt: &R, case: &Case, tally: &mut Tally) -> io::Result<()> {
    let alloc = rt.alloc();
    let outcome = compare(alloc, case.sources(alloc)?.as_slice())?;
    let name = case.name.as_str();
    let wanted = case.answer.as_str();
    let came = outcome.answer.as_str();
    if !wanted.is_empty() && wanted != came {
        tally.differs();
        println!(rt; "{name}: wanted was {wanted}, and there came {came}")?;
    }
    if let Some(difference) = &outcome.difference {
        tally.differs();
        println!(rt; "{name}: {difference}")?;
    }
    tally.count_case();
    Ok(())
}

/// The cases of a text. Prints lines that have no form.
fn read_cases<R: Print + AllocGlobal>(
    rt: &R,
    text: &str,
    tally: &mut Tally,
) -> io::Result<Vec<Case>> {
    let mut cases = Vec::new(rt.alloc());
    for line in text.lines() {
        if !take_line(rt.alloc(), &mut cases, line)? {
            tally.differs();
            println!(rt; "this line has no form: {line}")?;
        }
    }
    Ok(cases)
}

/// Compares the cases of a text.
fn compare_cases<R: Print + AllocGlobal>(rt: &R, text: &str, tally: &mut Tally) -> io::Result<()> {
    for case in &read_cases(rt, text, tally)? {
        compare_case(rt, case, tally)?;
    }
    Ok(())
}

/// Compares the sets that are made by the first so many numbers, and prints those that differ.
fn compare_made<R: Print + AllocGlobal>(rt: &R, count: u64, tally: &mut Tally) -> io::Result<()> {
    let alloc = rt.alloc();
    for number in 0..count {
        let text = made_text(alloc, number)?;
        let sources = made_sources(alloc, text.as_str())?;
        let outcome = compare(alloc, sources.as_slice())?;
        if let Some(difference) = &outcome.difference {
            tally.differs();
            println!(rt; "set {number}: {text}\n{difference}")?;
        }
        tally.count_made(&outcome)?;
    }
    Ok(())
}

/// Compares the cases of a file.
fn compare_file<R: std::rt::Files + Print + AllocGlobal>(
    rt: &R,
    name: &str,
    tally: &mut Tally,
) -> io::Result<()> {
    match text_of(rt, name)? {
        Some(text) => compare_cases(rt, text.as_str(), tally),
        None => {
            tally.differs();
            Ok(())
        }
    }
}

/// Compares what the words say: a number, that so many sets are made; any other, a file of cases.
fn run_words<R: std::rt::Files + Print + AllocGlobal>(
    rt: &R,
    words: &[String],
    tally: &mut Tally,
) -> io::Result<()> {
    for word in words {
        match word.as_str().parse::<u64>() {
            Ok(count) => compare_made(rt, count, tally)?,
            Err(_) => compare_file(rt, word.as_str(), tally)?,
        }
    }
    Ok(())
}

/// Compares what the words say, and prints what differs and how much was compared; whether nothing differs.
pub fn run<R: std::rt::Files + Print + AllocGlobal>(rt: &R, words: &[String]) -> io::Result<bool> {
    let mut tally = Tally::new(rt.alloc());
    run_words(rt, words, &mut tally)?;
    tally.print(rt)?;
    Ok(tally.is_good())
}
