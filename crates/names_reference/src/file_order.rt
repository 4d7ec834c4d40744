//! The resolved order of files.

use mojom_ast::Import;
use mojom_files::NamedFile;
use std::alloc::{AllocError, Global};

/// Whether an import names this file.
pub(crate) fn is_named(one: &Import, file: &NamedFile) -> bool {
    one.path.bytes.as_slice() == file.name.as_str().as_bytes()
}

/// Whether an import names one of the files of these numbers.
fn is_taken(files: &[NamedFile], taken: &[usize], one: &Import) -> bool {
    let mut taken = taken.iter();
    taken.any(|number| files.get(*number).is_some_and(|file| is_named(one, file)))
}

/// The first file that isn't taken, and all of whose imports are.
fn next_file(files: &[NamedFile], taken: &[usize]) -> Option<usize> {
    for (number, file) in files.iter().enumerate() {
        let mut imports = file.tree.imports.as_slice().iter();
        if !taken.contains(&number) && imports.all(|one| is_taken(files, taken, one)) {
            return Some(number);
        }
    }
    None
}

/// Whether a file of this name stands among the first so many.
pub(crate) fn is_given_before(files: &[NamedFile], number: usize, name: &str) -> bool {
    let mut before = files.iter().take(number);
    before.any(|other| other.name.as_str() == name)
}

/// Again and again the next file, until none can be taken any more.
pub(crate) fn taken_files(alloc: Global, files: &[NamedFile]) -> Result<Vec<usize>, AllocError> {
    let mut taken = Vec::new(alloc);
    for _ in files {
        match next_file(files, &taken) {
            Some(next) => taken.push(next)?,
            None => break,
        }
    }
    Ok(taken)
}

/// Whether a file was given twice.
fn has_double(files: &[NamedFile]) -> bool {
    let mut numbered = files.iter().enumerate();
    numbered.any(|(number, file)| is_given_before(files, number, file.name.as_str()))
}

/// The resolved order: again and again the next file is taken. None where a file was given twice, and
/// where files are left in the end, as one with an import that names no file.
pub fn order(alloc: Global, files: &[NamedFile]) -> Result<Option<Vec<usize>>, AllocError> {
    if has_double(files) {
        return Ok(None);
    }
    let taken = taken_files(alloc, files)?;
    if taken.len() < files.len() {
        return Ok(None);
    }
    Ok(Some(taken))
}
