//! What programs that compare share: files that they read whole, as bytes or as a text, numbers that seem to be drawn, and the
//! bytes of numbers.
#![tactic(auto)]

mod draws;
mod words;

pub use draws::Draws;
use mj_io::{Fetched, Files, RealFiles};
use std::io;
use std::io::Print;
pub use words::{push_words, word_bytes};

/// The bytes that a file of cases has at most.
const MOST_BYTES: u64 = 1_048_576;

/// The bytes of a file; none where it can't be read or has more than so many.
pub fn bytes_of<R: std::rt::Files + AllocGlobal>(rt: &R, name: &str, most: u64) -> Option<Vec<u8>> {
    let mut files = RealFiles::new(rt);
    let mut bytes = Vec::new(rt.alloc());
    match files.fetch(rt.alloc(), name, most, &mut bytes) {
        Ok(Fetched::Whole) => Some(bytes),
        Ok(Fetched::Longer) | Err(_) => None,
    }
}

/// Says that a file can't be read.
fn unread<R: Print + AllocGlobal>(rt: &R, name: &str) -> io::Result<Option<String>> {
    println!(rt; "{name}: it can't be read")?;
    Ok(None)
}

/// The text of a file of cases; none where it can't be read, has more bytes than such a file or isn't UTF-8, which is said.
pub fn text_of<R: std::rt::Files + Print + AllocGlobal>(
    rt: &R,
    name: &str,
) -> io::Result<Option<String>> {
    let Some(bytes) = bytes_of(rt, name, MOST_BYTES) else {
        return unread(rt, name);
    };
    match String::from_utf8(bytes) {
        Ok(text) => Ok(Some(text)),
        Err(_) => unread(rt, name),
    }
}

/// The texts of the files of cases that words name, and how many of the files have none, which is said of each.
pub fn texts_of<R: std::rt::Files + Print + AllocGlobal>(
    rt: &R,
    words: &[String],
) -> io::Result<(Vec<String>, u64)> {
    let mut texts = Vec::new(rt.alloc());
    let mut missing = 0u64;
    for word in words {
        match text_of(rt, word.as_str())? {
            Some(text) => texts.push(text)?,
            None => missing = missing.saturating_add(1),
        }
    }
    Ok((texts, missing))
}
