//! The lines of a text in a case: escapes, and lines that stand many times.

use std::alloc::{AllocError, AllocFailed};

/// Why a line was not read.
#[derive(Clone, Copy)]
pub enum LineError {
    BadForm,
    Memory,
}

impl From<AllocError> for LineError {
    fn from(_: AllocError) -> LineError {
        LineError::Memory
    }
}

impl<T: Drop> From<AllocFailed<T>> for LineError {
    fn from(_: AllocFailed<T>) -> LineError {
        LineError::Memory
    }
}

/// Appends what a line of a text says: `| TEXT`, `> TEXT`, `* TIMES FROM | TEXT` or
/// `* TIMES FROM > TEXT`.
pub fn append_line(line: &str, text: &mut Vec<u8>) -> Result<(), LineError> {
    match line.strip_prefix("* ") {
        None => append_marked(line, text),
        Some(rest) => {
            let (times, rest) = rest.split_once(' ').ok_or(LineError::BadForm)?;
            let (from, rest) = rest.split_once(' ').ok_or(LineError::BadForm)?;
            append_repeated(number(times)?, number(from)?, rest, text)
        }
    }
}

/// The number that the word spells.
fn number(word: &str) -> Result<u64, LineError> {
    match word.parse::<u64>() {
        Ok(number) => Ok(number),
        Err(_) => Err(LineError::BadForm),
    }
}

/// Appends a line many times. `{}` stands for a number that rises by one each time.
fn append_repeated(times: u64, from: u64, line: &str, text: &mut Vec<u8>) -> Result<(), LineError> {
    if !line.contains("{}") {
        let mut piece = Vec::new(*text.allocator());
        append_marked(line, &mut piece)?;
        return append_copies(times, piece.as_slice(), text);
    }
    for time in 0..times {
        append_numbered(from.saturating_add(time), line, text)?;
    }
    Ok(())
}

/// Appends a piece many times.
fn append_copies(times: u64, piece: &[u8], text: &mut Vec<u8>) -> Result<(), LineError> {
    for _ in 0..times {
        text.extend_from_slice(piece)?;
    }
    Ok(())
}

/// Appends a line, with the number in place of each `{}`.
fn append_numbered(number: u64, line: &str, text: &mut Vec<u8>) -> Result<(), LineError> {
    let alloc = *text.allocator();
    let digits = number.to_string(alloc)?;
    let mut numbered = String::new(alloc);
    for (place, part) in line.split("{}").enumerate() {
        if place > 0 {
            numbered.push_str(digits.as_str())?;
        }
        numbered.push_str(part)?;
    }
    append_marked(numbered.as_str(), text)
}

/// Appends the text after `| `, and a line feed, or the text after `> `.
fn append_marked(line: &str, text: &mut Vec<u8>) -> Result<(), LineError> {
    if let Some(written) = line.strip_prefix("> ") {
        return append_escaped(written, text);
    }
    let written = match line.strip_prefix("| ") {
        Some(written) => written,
        None if line == "|" => "",
        None => return Err(LineError::BadForm),
    };
    append_escaped(written, text)?;
    text.push(b'\n')?;
    Ok(())
}

/// Appends a text in which `\r`, `\t` and `\xHH` stand for bytes.
fn append_escaped(written: &str, text: &mut Vec<u8>) -> Result<(), LineError> {
    for (place, part) in written.split('\\').enumerate() {
        let rest = if place > 0 {
            append_escape(part, text)?
        } else {
            part
        };
        text.extend_from_slice(rest.as_bytes())?;
    }
    Ok(())
}

/// Appends the byte that is named after a backslash, and hands back what follows its name.
fn append_escape<'a>(part: &'a str, text: &mut Vec<u8>) -> Result<&'a str, LineError> {
    let (byte, rest) = if let Some(rest) = part.strip_prefix('r') {
        (b'\r', rest)
    } else if let Some(rest) = part.strip_prefix('t') {
        (b'\t', rest)
    } else {
        let hex = part.strip_prefix('x').ok_or(LineError::BadForm)?;
        let (digits, rest) = hex.split_at_checked(2).ok_or(LineError::BadForm)?;
        match u8::from_str_radix(digits, 16) {
            Ok(byte) => (byte, rest),
            Err(_) => return Err(LineError::BadForm),
        }
    };
    text.push(byte)?;
    Ok(rest)
}
