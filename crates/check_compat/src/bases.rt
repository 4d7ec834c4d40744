//! The files that are changed. A line `base NAME` begins one. `text TEXT` has a line of it, in which each `$` stands for a part, and
//! `part FORM|FORM|..` the forms of the next part, of which the first is taken where another part is changed.

use std::alloc::{AllocError, Global};

/// A file with parts of several forms.
#[derive(Drop)]
pub struct Base {
    pub name: String,
    text: String,
    pub parts: Vec<String>,
}

/// The form that is chosen for a part.
#[derive(Clone, Copy)]
pub struct Choice {
    pub part: usize,
    pub form: usize,
}

impl Base {
    /// A base of which no more than the name was read.
    fn new(alloc: Global, name: &str) -> Result<Base, AllocError> {
        Ok(Base {
            name: String::from_str(alloc, name)?,
            text: String::new(alloc),
            parts: Vec::new(alloc),
        })
    }

    /// Takes one of its lines; whether that has a form.
    fn take(&mut self, alloc: Global, line: &str) -> Result<bool, AllocError> {
        let (word, rest) = line.split_once(' ').unwrap_or((line, ""));
        match word {
            "text" => {
                self.text.push_str(rest)?;
                self.text.push_str("\n")?;
            }
            "part" => self.parts.push(String::from_str(alloc, rest)?)?,
            _ => return Ok(false),
        }
        Ok(true)
    }

    /// How many forms a part has.
    pub fn forms(&self, part: usize) -> usize {
        match self.parts.get(part) {
            Some(forms) => forms.as_str().split('|').count(),
            None => 0,
        }
    }

    /// The form of a part by two choices, the first where it is neither's.
    fn form(&self, part: usize, one: Choice, other: Choice) -> &str {
        let number = if part == one.part {
            one.form
        } else if part == other.part {
            other.form
        } else {
            0
        };
        match self.parts.get(part) {
            Some(forms) => forms.as_str().split('|').nth(number).unwrap_or(""),
            None => "",
        }
    }

    /// The text with these two choices.
    pub fn made(&self, alloc: Global, one: Choice, other: Choice) -> Result<String, AllocError> {
        let mut text = String::new(alloc);
        for (part, piece) in self.text.as_str().split('$').enumerate() {
            text.push_str(piece)?;
            text.push_str(self.form(part, one, other))?;
        }
        Ok(text)
    }
}

/// Takes a line of a file of bases; whether that has a form. Empty lines and those that begin with `#` say nothing.
pub fn take_line(alloc: Global, bases: &mut Vec<Base>, line: &str) -> Result<bool, AllocError> {
    if line.is_empty() || line.starts_with("#") {
        return Ok(true);
    }
    if let Some(name) = line.strip_prefix("base ") {
        bases.push(Base::new(alloc, name)?)?;
        return Ok(true);
    }
    match bases.last_mut() {
        Some(base) => Base::take(base, alloc, line),
        None => Ok(false),
    }
}
