//! A print of a print: the same text again.

use crate::case::Case;
use mj_io::NamedFile;
use std::alloc::{AllocError, Global};

/// Words once more.
fn words_of(alloc: Global, words: &[String]) -> Result<Vec<String>, AllocError> {
    let mut copied = Vec::new(alloc);
    for word in words {
        copied.push(String::from_str(alloc, word.as_str())?)?;
    }
    Ok(copied)
}

/// One file of a name, with these bytes.
fn one_file(alloc: Global, name: &str, bytes: &[u8]) -> Result<Vec<NamedFile>, AllocError> {
    let mut files = Vec::new(alloc);
    files.push(NamedFile {
        name: String::from_str(alloc, name)?,
        bytes: bytes.to_vec(alloc)?,
    })?;
    Ok(files)
}

/// The case that prints the text of a case's print, and wants it again; none for another case.
pub fn printed_again(alloc: Global, case: &Case) -> Result<Option<Case>, AllocError> {
    let [_, command, file] = case.words.as_slice() else {
        return Ok(None);
    };
    if command.as_str() != "print" || case.wanted.status != 0 {
        return Ok(None);
    }
    let text = case.wanted.out.as_slice();
    let mut again = Case::new(alloc, case.name.as_str())?;
    again.words = words_of(alloc, case.words.as_slice())?;
    again.files = one_file(alloc, file.as_str(), text)?;
    again.wanted.out = text.to_vec(alloc)?;
    Ok(Some(again))
}
