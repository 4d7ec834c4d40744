//! What a name means where it stands.

use crate::file_order::is_named;
use crate::things::Thing;
use mj_base::{Text, within};
use mojom_ast::{File, Name};
use mojom_files::{NamedFile, dotted};
use std::alloc::{AllocError, Global};

/// Files, their numbers in resolved order, and their things.
#[derive(Clone, Copy)]
pub struct Given<'a> {
    pub files: &'a [NamedFile],
    pub order: &'a [usize],
    pub things: &'a [Thing<'a>],
}

/// The full names for which a name may stand: within the definition around it, within the module and
/// each shorter front of it, and alone.
fn candidates(
    alloc: Global,
    here: &File,
    enclosing: &Option<Text>,
    name: &str,
) -> Result<Vec<Text>, AllocError> {
    let mut texts = Vec::new(alloc);
    if let Some(outer) = enclosing {
        texts.push(within(alloc, outer.as_str(), name)?)?;
    }
    if let Some(statement) = &here.module_statement {
        let parts = statement.name.parts.as_slice();
        for fewer in 0..parts.len() {
            let front = dotted(alloc, &parts[..parts.len() - fewer])?;
            texts.push(within(alloc, front.as_str(), name)?)?;
        }
    }
    texts.push(Text::from_str(alloc, name)?)?;
    Ok(texts)
}

/// Whether a file sees another: it is the file itself, or imported by it.
fn sees(file: &NamedFile, other: &NamedFile) -> bool {
    let mut imports = file.tree.imports.as_slice().iter();
    file.name.as_str() == other.name.as_str() || imports.any(|one| is_named(one, other))
}

/// The first definition, or the first enumerator, of this full name in the file of this number.
fn first_in(given: Given<'_>, file: usize, is_enumerator: bool, full: &str) -> Option<usize> {
    for (number, one) in given.things.iter().enumerate() {
        let is_of_sort = one.file == file && one.is_enumerator == is_enumerator;
        if is_of_sort && one.full.as_str() == full {
            return Some(number);
        }
    }
    None
}

/// The first definition, or the first enumerator, of this full name in the files that a file sees.
fn first_seen(
    given: Given<'_>,
    here: &NamedFile,
    is_enumerator: bool,
    full: &str,
) -> Option<usize> {
    for number in given.order {
        let file = given.files.get(*number);
        let found = first_in(given, *number, is_enumerator, full);
        if found.is_some() && file.is_some_and(|other| sees(here, other)) {
            return found;
        }
    }
    None
}

/// What has this full name in the files that a file sees: a definition of any, or else an enumerator.
fn named(given: Given<'_>, here: &NamedFile, full: &str) -> Option<usize> {
    let found = first_seen(given, here, false, full);
    if found.is_some() {
        return found;
    }
    first_seen(given, here, true, full)
}

/// The number of the thing that a name means in the file of this number, within the definition of this
/// full name: the first of its candidates that anything has.
pub fn meaning(
    alloc: Global,
    given: Given<'_>,
    file: usize,
    enclosing: &Option<Text>,
    name: &Name,
) -> Result<Option<usize>, AllocError> {
    let Some(here) = given.files.get(file) else {
        return Ok(None);
    };
    let name = dotted(alloc, name.parts.as_slice())?;
    for full in candidates(alloc, &here.tree, enclosing, name.as_str())?.as_slice() {
        let found = named(given, here, full.as_str());
        if found.is_some() {
            return Ok(found);
        }
    }
    Ok(None)
}
