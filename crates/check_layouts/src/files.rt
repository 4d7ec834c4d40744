//! The files of layouts that words name, each line compared.

use crate::layout::Wanted;
use check_files::texts_of;
use std::io;
use std::io::Print;

/// How many layouts went which way.
#[derive(Clone, Copy)]
struct Tally {
    passed: u64,
    failed: u64,
}

/// Compares the layouts of a file's lines.
fn compare<R: Print + AllocGlobal>(rt: &R, text: &str, tally: &mut Tally) -> io::Result<()> {
    for line in text.lines() {
        if line.is_empty() || line.starts_with("#") {
            continue;
        }
        let is_right = match Wanted::read(rt.alloc(), line)? {
            Some(wanted) => wanted.is_given(rt.alloc())?,
            None => false,
        };
        if is_right {
            tally.passed = tally.passed.saturating_add(1);
        } else {
            tally.failed = tally.failed.saturating_add(1);
            println!(rt; "{line}")?;
        }
    }
    Ok(())
}

/// Compares the layouts of the files that the words name, and prints those that are wrong and how many there were;
/// whether all are right.
pub fn run<R: std::rt::Files + Print + AllocGlobal>(rt: &R, words: &[String]) -> io::Result<bool> {
    let (texts, unread) = texts_of(rt, words)?;
    let mut tally = Tally {
        passed: 0,
        failed: unread,
    };
    for text in &texts {
        compare(rt, text.as_str(), &mut tally)?;
    }
    println!(rt; "{} passed, {} failed", tally.passed, tally.failed)?;
    Ok(tally.failed == 0)
}
