//! The cases of a file. A line `case NAME` begins one; `file NAME` begins one of its files, whose text stands behind
//! it in lines `| LINE`, and in `> TEXT` where no line feed ends it. `answer TEXT` is what is wanted of the files: their
//! first refusal, or `listed` where nothing is refused.

use mj_base::{Items, Text};
use mojom_compile::Source;
use std::alloc::{AllocError, Global};

/// A file of a case.
#[derive(Drop)]
struct Part {
    name: String,
    text: String,
}

/// Files, and what is wanted of them: where the text is empty, nothing.
#[derive(Drop)]
pub struct Case {
    pub name: String,
    parts: Vec<Part>,
    pub answer: String,
}

impl Case {
    /// A case of which no more than the name was read.
    fn new(alloc: Global, name: &str) -> Result<Case, AllocError> {
        Ok(Case {
            name: String::from_str(alloc, name)?,
            parts: Vec::new(alloc),
            answer: String::new(alloc),
        })
    }

    /// Takes one of its lines; whether that has a form.
    fn take(&mut self, alloc: Global, line: &str) -> Result<bool, AllocError> {
        let (word, rest) = line.split_once(' ').unwrap_or((line, ""));
        match word {
            "file" => self.take_file(alloc, rest)?,
            "|" => return self.take_text(rest, "\n"),
            ">" => return self.take_text(rest, ""),
            "answer" => self.answer.push_str(rest)?,
            _ => return Ok(false),
        }
        Ok(true)
    }

    /// Begins a file of this name.
    fn take_file(&mut self, alloc: Global, name: &str) -> Result<(), AllocError> {
        self.parts.push(Part {
            name: String::from_str(alloc, name)?,
            text: String::new(alloc),
        })?;
        Ok(())
    }

    /// Adds to the text of the last file; whether there is one.
    fn take_text(&mut self, text: &str, end: &str) -> Result<bool, AllocError> {
        let Some(part) = self.parts.last_mut() else {
            return Ok(false);
        };
        part.text.push_str(text)?;
        part.text.push_str(end)?;
        Ok(true)
    }

    /// The files.
    pub fn sources(&self, alloc: Global) -> Result<Vec<Source>, AllocError> {
        let mut sources = Vec::new(alloc);
        for part in &self.parts {
            add_source(alloc, &mut sources, part.name.as_str(), part.text.as_str())?;
        }
        Ok(sources)
    }
}

/// Adds a file of this name and text.
pub fn add_source(
    alloc: Global,
    sources: &mut Vec<Source>,
    name: &str,
    text: &str,
) -> Result<(), AllocError> {
    let name = Text::from_str(alloc, name)?;
    let bytes = Items::from_vec(Vec::from_slice(alloc, text.as_bytes())?);
    sources.push(Source { name, bytes })?;
    Ok(())
}

/// Takes a line of a file of cases; whether that has a form. Empty lines and those that begin with `#` say nothing.
pub fn take_line(alloc: Global, cases: &mut Vec<Case>, line: &str) -> Result<bool, AllocError> {
    if line.is_empty() || line.starts_with("#") {
        return Ok(true);
    }
    if let Some(name) = line.strip_prefix("case ") {
        cases.push(Case::new(alloc, name)?)?;
        return Ok(true);
    }
    match cases.last_mut() {
        Some(case) => Case::take(case, alloc, line),
        None => Ok(false),
    }
}
