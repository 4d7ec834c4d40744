//! The histories that runs print, read back.

use crate::case::Case;
use bind_model::History;
use history_reader::read_history;
use history_text::render;
use mj_base::{Items, Text};
use mj_io::NamedFile;
use mj_schema::Schema;
use mojom_compile::{Source, compile};
use std::alloc::{AllocError, Global};

/// A file as the compiler takes it.
fn source_of(alloc: Global, file: &NamedFile) -> Result<Source, AllocError> {
    Ok(Source {
        name: Text::from_str(alloc, file.name.as_str())?,
        bytes: Items::from_vec(file.bytes.as_slice().to_vec(alloc)?),
    })
}

/// The files of these names that are there.
fn sources_of(
    alloc: Global,
    files: &[NamedFile],
    names: &[String],
) -> Result<Vec<Source>, AllocError> {
    let mut sources = Vec::new(alloc);
    for name in names {
        let found = files
            .iter()
            .find(|file| file.name.as_str() == name.as_str());
        if let Some(file) = found {
            sources.push(source_of(alloc, file)?)?;
        }
    }
    Ok(sources)
}

/// Whether a text says a history, and is the text of that history.
fn is_text_of_itself(alloc: Global, schema: &Schema, text: &[u8]) -> Result<bool, AllocError> {
    let Ok(printed) = read_history(alloc, schema, text) else {
        return Ok(false);
    };
    let is_counted = printed.count == printed.events.len() as u64;
    let history = History::from_items(printed.events);
    let (notes, left) = (printed.notes.as_slice(), printed.left.as_slice());
    let again = render(alloc, schema, &history, notes, left)?;
    Ok(again.as_slice() == text && is_counted)
}

/// Whether the text that a case wants of a run gives its history back; none for another case.
pub fn is_read_back(alloc: Global, case: &Case) -> Result<Option<bool>, AllocError> {
    let [_, command, option, _, names @ ..] = case.words.as_slice() else {
        return Ok(None);
    };
    let is_run = command.as_str() == "run" && option.as_str() == "--script";
    if !is_run || case.wanted.status != 0 {
        return Ok(None);
    }
    let sources = sources_of(alloc, case.files.as_slice(), names)?;
    match compile(alloc, sources.as_slice()) {
        Ok(schema) => Ok(Some(is_text_of_itself(alloc, &schema, case.wanted.out.as_slice())?)),
        Err(_) => Ok(Some(false)),
    }
}
