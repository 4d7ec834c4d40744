//! Reads files of cases, line by line.

use crate::case::{Case, CaseError, Failing};
use crate::lines::{LineError, append_line};
use mj_io::NamedFile;
use std::alloc::Global;

/// The text that the lines with a mark belong to.
#[derive(Clone, Copy)]
enum Place {
    Nowhere,
    File,
    Out,
    Err,
}

/// The cases read so far, the last of them unfinished.
#[derive(Drop)]
struct Reader {
    cases: Vec<Case>,
    place: Place,
}

/// The cases of a text.
pub fn read_cases(alloc: Global, text: &str) -> Result<Vec<Case>, CaseError> {
    let mut reader = Reader {
        cases: Vec::new(alloc),
        place: Place::Nowhere,
    };
    let mut number = 0u64;
    for line in text.split('\n') {
        number = number.saturating_add(1);
        if let Err(error) = reader.read_line(alloc, line) {
            return Err(CaseError::at_line(error, number));
        }
    }
    Ok(reader.cases)
}

impl Reader {
    /// Takes a line. Empty lines and those that begin with `#` say nothing.
    fn read_line(&mut self, alloc: Global, line: &str) -> Result<(), LineError> {
        if line.is_empty() || line.starts_with('#') {
            return Ok(());
        }
        if line.starts_with(['|', '>', '*']) {
            return self.read_text_line(line);
        }
        let (keyword, rest) = line.split_once(' ').unwrap_or((line, ""));
        if keyword == "case" {
            self.place = Place::Nowhere;
            self.cases.push(Case::new(alloc, rest)?)?;
            return Ok(());
        }
        let case = self.cases.last_mut().ok_or(LineError::BadForm)?;
        self.place = read_keyword(alloc, keyword, rest, case)?;
        Ok(())
    }

    /// Takes a line of a text.
    fn read_text_line(&mut self, line: &str) -> Result<(), LineError> {
        let case = self.cases.last_mut().ok_or(LineError::BadForm)?;
        match self.place {
            Place::Nowhere => Err(LineError::BadForm),
            Place::File => {
                let file = case.files.last_mut().ok_or(LineError::BadForm)?;
                append_line(line, &mut file.bytes)
            }
            Place::Out => append_line(line, &mut case.wanted.out),
            Place::Err => append_line(line, &mut case.wanted.err),
        }
    }
}

/// Takes a line that begins with a keyword, and says where the lines of text after it belong.
fn read_keyword(
    alloc: Global,
    keyword: &str,
    rest: &str,
    case: &mut Case,
) -> Result<Place, LineError> {
    match keyword {
        "words" => {
            read_words(alloc, rest, &mut case.words)?;
            Ok(Place::Nowhere)
        }
        "status" => {
            case.wanted.status = rest.parse::<u8>().ok().ok_or(LineError::BadForm)?;
            Ok(Place::Nowhere)
        }
        "fails" => {
            read_failing(rest, &mut case.failing)?;
            Ok(Place::Nowhere)
        }
        "takes" => {
            read_most(rest, &mut case.failing)?;
            Ok(Place::Nowhere)
        }
        "file" => {
            case.files.push(NamedFile {
                name: String::from_str(alloc, rest)?,
                bytes: Vec::new(alloc),
            })?;
            Ok(Place::File)
        }
        "out" => Ok(Place::Out),
        "err" => Ok(Place::Err),
        _ => Err(LineError::BadForm),
    }
}

/// Appends the words of a command line, the program's name first.
fn read_words(alloc: Global, line: &str, words: &mut Vec<String>) -> Result<(), LineError> {
    for word in line.split(' ') {
        words.push(String::from_str(alloc, word)?)?;
    }
    Ok(())
}

/// Appends the number of a call that is to fail, behind the word that says of what.
fn read_failing(line: &str, failing: &mut Failing) -> Result<(), LineError> {
    let (which, number) = line.split_once(' ').ok_or(LineError::BadForm)?;
    let number = number.parse::<u64>().ok().ok_or(LineError::BadForm)?;
    match which {
        "fetch" => failing.fetches.push(number)?,
        "out" => failing.out.push(number)?,
        "err" => failing.err.push(number)?,
        _ => return Err(LineError::BadForm),
    }
    Ok(())
}

/// Takes how many bytes a write takes at most, behind the word that says to which stream.
fn read_most(line: &str, failing: &mut Failing) -> Result<(), LineError> {
    let (which, number) = line.split_once(' ').ok_or(LineError::BadForm)?;
    let most = number.parse::<u32>().ok().ok_or(LineError::BadForm)?;
    match which {
        "out" => failing.most_out = most as usize,
        "err" => failing.most_err = most as usize,
        _ => return Err(LineError::BadForm),
    }
    Ok(())
}
