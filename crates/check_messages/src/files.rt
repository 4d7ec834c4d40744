//! The files of messages that words name, each message compared.

use crate::case::{Case, cases};
use crate::compare::{Setting, Verdict, compare};
use crate::edits::{Tally, compare_cuts, compare_edits};
use check_files::texts_of;
use std::alloc::{AllocError, Global};
use std::io;
use std::io::Print;

/// Compares a case; none where its definitions are refused or its message is.
fn compare_case(alloc: Global, case: &mut Case) -> Result<Option<Tally>, AllocError> {
    let Some(schema) = case.schema(alloc)? else {
        return Ok(None);
    };
    let Some(expected) = case.expected(&schema) else {
        return Ok(None);
    };
    let setting = Setting {
        schema: &schema,
        expected,
        handles: case.handles,
    };
    if compare(alloc, setting, &case.bytes)? != Verdict::Stands {
        return Ok(None);
    }
    let mut tally = compare_cuts(alloc, setting, &case.bytes)?;
    tally.add(compare_edits(alloc, setting, &mut case.bytes)?);
    Ok(Some(tally))
}

/// Compares the cases of a text, and prints what came of each.
fn compare_text<R: Print + AllocGlobal>(rt: &R, text: &str, total: &mut Tally) -> io::Result<()> {
    let mut cases = cases(rt.alloc(), text)?;
    for case in &mut cases {
        match compare_case(rt.alloc(), case)? {
            Some(tally) => {
                let compared = tally.compared();
                println!(rt;
                    "{}: {} compared, {} stand, {} refused, {} differ",
                    case.name.as_str(),
                    compared,
                    tally.stand,
                    tally.refused,
                    tally.differ
                )?;
                Tally::add(total, tally);
            }
            None => {
                total.differ = total.differ.saturating_add(1);
                println!(rt; "{}: it doesn't stand", case.name.as_str())?;
            }
        }
    }
    Ok(())
}

/// Compares the cases of the files that the words name, and prints what came of each; whether nothing differs.
pub fn run<R: std::rt::Files + Print + AllocGlobal>(rt: &R, words: &[String]) -> io::Result<bool> {
    let (texts, unread) = texts_of(rt, words)?;
    let mut tally = Tally::default();
    tally.differ = unread;
    for text in &texts {
        compare_text(rt, text.as_str(), &mut tally)?;
    }
    println!(rt;
        "{} compared, {} differences",
        tally.compared(),
        tally.differ
    )?;
    Ok(tally.differ == 0)
}
