//! Why files have no order.

use crate::file_order::{is_given_before, is_named, taken_files};
use crate::reasons::{Reason, Word, add_reason};
use mojom_files::NamedFile;
use std::alloc::{AllocError, Global};
use std::str;

/// Adds the imports of a file that name none of the files.
fn add_unmet(
    alloc: Global,
    reasons: &mut Vec<Reason>,
    files: &[NamedFile],
    file: &NamedFile,
) -> Result<(), AllocError> {
    for one in file.tree.imports.as_slice() {
        if !files.iter().any(|other| is_named(one, other)) {
            let path = str::from_utf8(one.path.bytes.as_slice()).unwrap_or("?");
            add_reason(alloc, reasons, one.path.span.start, Word::NoFile, path)?;
        }
    }
    Ok(())
}

/// The first of the files, in the order given, that was given before or has an import that names none, and why it is
/// refused.
fn first_unmet(
    alloc: Global,
    files: &[NamedFile],
) -> Result<Option<(usize, Vec<Reason>)>, AllocError> {
    for (number, file) in files.iter().enumerate() {
        let mut reasons = Vec::new(alloc);
        let name = file.name.as_str();
        if is_given_before(files, number, name) {
            add_reason(alloc, &mut reasons, 0, Word::DuplicateName, name)?;
        }
        add_unmet(alloc, &mut reasons, files, file)?;
        if !reasons.is_empty() {
            return Ok(Some((number, reasons)));
        }
    }
    Ok(None)
}

/// The first of the files that one import names and that isn't taken.
fn left_file(files: &[NamedFile], taken: &[usize], one: &mojom_ast::Import) -> Option<usize> {
    let mut numbered = files.iter().enumerate();
    numbered.position(|(number, file)| !taken.contains(&number) && is_named(one, file))
}

/// The first import of a file that names one that isn't taken: its place, and the number of that one.
fn first_left(files: &[NamedFile], taken: &[usize], number: usize) -> Option<(u64, usize)> {
    let file = files.get(number)?;
    for one in file.tree.imports.as_slice() {
        if let Some(next) = left_file(files, taken, one) {
            return Some((one.path.span.start, next));
        }
    }
    None
}

/// From the first file that isn't taken on, the files that one comes to by the first import of each that isn't taken,
/// each with the place of that import; and the file to which the last one leads, which is one of them.
fn way(
    alloc: Global,
    files: &[NamedFile],
    taken: &[usize],
) -> Result<(Vec<(usize, u64)>, usize), AllocError> {
    let mut way: Vec<(usize, u64)> = Vec::new(alloc);
    let mut numbers = 0..files.len();
    let mut at = numbers.find(|number| !taken.contains(number)).unwrap_or(0);
    for _ in files {
        if way.iter().any(|(number, _)| *number == at) {
            break;
        }
        if let Some((place, next)) = first_left(files, taken, at) {
            way.push((at, place))?;
            at = next;
        }
    }
    Ok((way, at))
}

/// The names of the files of a way that stand from this one on, with a blank between two.
fn names_from(
    alloc: Global,
    files: &[NamedFile],
    way: &[(usize, u64)],
    first: usize,
) -> Result<String, AllocError> {
    let mut text = String::new(alloc);
    for (number, _) in way.iter().skip_while(|(number, _)| *number != first) {
        if !text.is_empty() {
            text.push_str(" ")?;
        }
        if let Some(file) = files.get(*number) {
            text.push_str(file.name.as_str())?;
        }
    }
    Ok(text)
}

/// The circle of imports: its first file, and why it is refused.
fn circle(
    alloc: Global,
    files: &[NamedFile],
    taken: &[usize],
) -> Result<(usize, Vec<Reason>), AllocError> {
    let (way, first) = way(alloc, files, taken)?;
    let names = names_from(alloc, files, &way, first)?;
    let mut reasons = Vec::new(alloc);
    if let Some((_, at)) = way.iter().find(|(number, _)| *number == first) {
        add_reason(
            alloc,
            &mut reasons,
            *at,
            Word::CircularImport,
            names.as_str(),
        )?;
    }
    Ok((first, reasons))
}

/// Why files have no order, and the number of the file that is refused for it; none where they have one.
pub fn no_order(
    alloc: Global,
    files: &[NamedFile],
) -> Result<Option<(usize, Vec<Reason>)>, AllocError> {
    let unmet = first_unmet(alloc, files)?;
    if unmet.is_some() {
        return Ok(unmet);
    }
    let taken = taken_files(alloc, files)?;
    if taken.len() < files.len() {
        return Ok(Some(circle(alloc, files, &taken)?));
    }
    Ok(None)
}
