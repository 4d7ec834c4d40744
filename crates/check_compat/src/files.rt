//! The files of bases that words name: of each base all pairs of files that two of its parts give.

use crate::bases::{Base, Choice, take_line};
use crate::choices::Choices;
use crate::compare::compare;
use crate::tally::Tally;
use check_files::texts_of;
use std::alloc::{AllocError, Global};
use std::io;
use std::io::Print;

/// The text of a base with the next choices for two parts.
fn next_text(
    alloc: Global,
    base: &Base,
    parts: (usize, usize),
    choices: &mut Choices,
) -> Result<String, AllocError> {
    let (first, second) = parts;
    let one = Choice {
        part: first,
        form: choices.below(base.forms(first)),
    };
    let other = Choice {
        part: second,
        form: choices.below(base.forms(second)),
    };
    base.made(alloc, one, other)
}

/// Compares the pair of files of this number, and prints it where it differs.
fn compare_number<R: Print + AllocGlobal>(
    rt: &R,
    base: &Base,
    parts: (usize, usize),
    number: u64,
    tally: &mut Tally,
) -> io::Result<()> {
    let mut choices = Choices { left: number };
    let old = next_text(rt.alloc(), base, parts, &mut choices)?;
    let new = next_text(rt.alloc(), base, parts, &mut choices)?;
    let (old, new) = (old.as_str(), new.as_str());
    if let Some(difference) = compare(rt.alloc(), old, new, tally)? {
        tally.differ = tally.differ.saturating_add(1);
        println!(rt; "{old}{new}{difference}")?;
    }
    Ok(())
}

/// Compares all pairs of files that two parts give: each form of both in either file.
fn compare_parts<R: Print + AllocGlobal>(
    rt: &R,
    base: &Base,
    parts: (usize, usize),
    tally: &mut Tally,
) -> io::Result<()> {
    let (first, second) = parts;
    let forms = (base.forms(first) as u64).saturating_mul(base.forms(second) as u64);
    for number in 0..forms.saturating_mul(forms) {
        compare_number(rt, base, parts, number, tally)?;
    }
    Ok(())
}

/// Compares all pairs of files of a part and each behind it.
fn compare_part<R: Print + AllocGlobal>(
    rt: &R,
    base: &Base,
    first: usize,
    tally: &mut Tally,
) -> io::Result<()> {
    for second in first.saturating_add(1)..base.parts.len() {
        compare_parts(rt, base, (first, second), tally)?;
    }
    Ok(())
}

/// Compares all pairs of files of a base, and prints what came of them.
fn compare_base<R: Print + AllocGlobal>(rt: &R, base: &Base, total: &mut Tally) -> io::Result<()> {
    let mut tally = Tally::new(rt.alloc());
    for first in 0..base.parts.len() {
        compare_part(rt, base, first, &mut tally)?;
    }
    tally.print(rt, base.name.as_str())?;
    total.add(&tally)?;
    Ok(())
}

/// The bases of a text. Prints lines that have no form.
fn read_bases<R: Print + AllocGlobal>(
    rt: &R,
    text: &str,
    total: &mut Tally,
) -> io::Result<Vec<Base>> {
    let mut bases = Vec::new(rt.alloc());
    for line in text.lines() {
        if !take_line(rt.alloc(), &mut bases, line)? {
            total.differ = total.differ.saturating_add(1);
            println!(rt; "this line has no form: {line}")?;
        }
    }
    Ok(bases)
}

/// Compares the bases of a text.
fn compare_text<R: Print + AllocGlobal>(rt: &R, text: &str, total: &mut Tally) -> io::Result<()> {
    for base in &read_bases(rt, text, total)? {
        compare_base(rt, base, total)?;
    }
    Ok(())
}

/// Compares the bases of the files that the words name, and prints what came of each; whether nothing differs.
pub fn run<R: std::rt::Files + Print + AllocGlobal>(rt: &R, words: &[String]) -> io::Result<bool> {
    let (texts, unread) = texts_of(rt, words)?;
    let mut total = Tally::new(rt.alloc());
    total.differ = unread;
    for text in &texts {
        compare_text(rt, text.as_str(), &mut total)?;
    }
    total.print_reasons(rt)?;
    total.print(rt, "all")?;
    Ok(total.differ == 0)
}
