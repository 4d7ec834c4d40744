//! The histories that runs print, audited: each is sound.

use crate::case::Case;
use mj_base::limits::MAX_FILE_BYTES;
use mj_io::NamedFile;
use std::alloc::{AllocError, Global};

/// The name under which the history is put beside the case's files.
const HISTORY: &str = "printed.history";

/// A file once more.
fn copied(alloc: Global, file: &NamedFile) -> Result<NamedFile, AllocError> {
    Ok(NamedFile {
        name: String::from_str(alloc, file.name.as_str())?,
        bytes: file.bytes.as_slice().to_vec(alloc)?,
    })
}

/// The files of a run, with its history.
fn files_of(
    alloc: Global,
    files: &[NamedFile],
    history: &[u8],
) -> Result<Vec<NamedFile>, AllocError> {
    let mut all = Vec::new(alloc);
    for file in files {
        all.push(copied(alloc, file)?)?;
    }
    all.push(NamedFile {
        name: String::from_str(alloc, HISTORY)?,
        bytes: history.to_vec(alloc)?,
    })?;
    Ok(all)
}

/// The words that audit the history of a run, whose words behind the script's name are these: its Mojom
/// files stay, and its order goes.
fn words_of(
    alloc: Global,
    script: &str,
    rest: &[String],
    files: &[NamedFile],
) -> Result<Vec<String>, AllocError> {
    let mut words = Vec::new(alloc);
    for word in ["mojo", "audit", "--script", script, "--history", HISTORY] {
        words.push(String::from_str(alloc, word)?)?;
    }
    for word in rest {
        let is_file = files.iter().any(|file| file.name.as_str() == word.as_str());
        if is_file {
            words.push(String::from_str(alloc, word.as_str())?)?;
        }
    }
    Ok(words)
}

/// How many events a history says that it has, as it is written in its last line.
fn count_of(history: &str) -> &str {
    let mut count = "";
    for line in history.split('\n') {
        if let Some(number) = line.strip_prefix("done ") {
            count = number;
        }
    }
    count
}

/// The case that audits the history that a case's run prints, and wants it to be sound; none for another
/// case, or where the history is longer than a file may be.
pub fn audited(alloc: Global, case: &Case) -> Result<Option<Case>, AllocError> {
    let [_, command, option, script, rest @ ..] = case.words.as_slice() else {
        return Ok(None);
    };
    let is_run = command.as_str() == "run" && option.as_str() == "--script";
    let history = case.wanted.out.as_slice();
    if !is_run || case.wanted.status != 0 || history.len() as u64 > MAX_FILE_BYTES {
        return Ok(None);
    }
    let Ok(text) = str::from_utf8(history) else {
        return Ok(None);
    };
    let count = count_of(text);
    let mut audit = Case::new(alloc, case.name.as_str())?;
    audit.words = words_of(alloc, script.as_str(), rest, case.files.as_slice())?;
    audit.files = files_of(alloc, case.files.as_slice(), history)?;
    let wanted = format!(in alloc; "sound {count}\n")?;
    audit.wanted.out = wanted.as_str().as_bytes().to_vec(alloc)?;
    Ok(Some(audit))
}
