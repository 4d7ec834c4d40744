//! The circle in which imports go.

ghost use Rattle.std.specs.Prelude.{◌≡◌, ◌<◌, length, true, false, Some, None, IfOk, get_or};
ghost use Rattle.std.specs.List.{range_with_len};
ghost use Rattle.import_order.specs.Imports.{has, all_files, first_left, import_left, next_file, IsCircle};
ghost use Rattle.import_order.specs.steps.Taking.{AreBelow, AreImports};

use crate::marked::Marked;
use mj_base::Items;
use std::alloc::{AllocError, Global};

/// A walk up to where it comes back, and the place in it where its circle begins.
#[derive(Drop)]
pub struct Circle {
    pub path: Vec<u32>,
    pub first: usize,
}

/// The first of these files that isn't taken.
fn first_left(taken: &Marked, files: &[u32]) -> Option<u32>
    requires { AreBelow taken.now.limit files.now }
    ensures { result ≡ first_left taken.now.numbers files.now }
{
    for file in files {
        if !taken.has(*file) {
            return Some(*file);
        }
    }
    None
}

/// The first of so many files that isn't taken.
pub(crate) fn first_file_left(taken: &Marked, count: u32) -> Option<u32>
    requires { taken.now.limit ≡ count }
    ensures { result ≡ first_left taken.now.numbers (range_with_len 0 count) }
{
    for file in 0..count {
        if !taken.has(file) {
            return Some(file);
        }
    }
    None
}

/// The first import of a file that isn't taken.
pub(crate) fn import_left(imports: &[Items<u32>], taken: &Marked, file: u32) -> Option<u32>
    requires imports { AreImports imports.now }
    requires limit { taken.now.limit ≡ length imports.now }
    requires within { file < length imports.now }
    ensures { result ≡ import_left imports.now taken.now.numbers file }
{
    first_left(taken, imports[file as usize].as_slice())
}

/// The file to which a file's first import leads that isn't taken, where no file can be taken.
pub(crate) fn next_on_walk(imports: &[Items<u32>], taken: &Marked, file: u32) -> u32
    requires imports { AreImports imports.now }
    requires limit { taken.now.limit ≡ length imports.now }
    requires none_next { next_file imports.now taken.now.numbers ≡ None }
    requires within { file < length imports.now }
    requires left { has taken.now.numbers file ≡ false }
    ensures leads { import_left imports.now taken.now.numbers file ≡ Some result }
    ensures within { result < length imports.now }
    ensures left { has taken.now.numbers result ≡ false }
{
    match import_left(imports, taken, file) {
        Some(next) => next,
        None => unreachable!(),
    }
}

/// The first place of a file on the path.
fn place_of(path: &[u32], file: u32) -> usize
    requires { has path.now file ≡ true }
    ensures within { result < length path.now }
    ensures is { get_or path.now result 0 ≡ file }
{
    for (place, other) in path.iter().enumerate() {
        if *other == file {
            return place;
        }
    }
    unreachable!()
}

/// The circle to which the walk from here comes, where no file can be taken.
pub(crate) fn find_circle(
    alloc: Global,
    imports: &[Items<u32>],
    taken: &Marked,
    from: u32,
) -> Result<Circle, AllocError>
    requires imports { AreImports imports.now }
    requires limit { taken.now.limit ≡ length imports.now }
    requires none_next { next_file imports.now taken.now.numbers ≡ None }
    requires from { first_left taken.now.numbers (all_files imports.now) ≡ Some from }
    ensures is { IfOk result (λ circle. IsCircle imports.now taken.now.numbers circle.path.items circle.first) }
    ensures below { IfOk result (λ circle. AreBelow (length imports.now) circle.path.items) }
    ensures left { IfOk result (λ circle. has taken.now.numbers (get_or circle.path.items circle.first 0) ≡ false) }
{
    let mut path = Marked::new(alloc, imports.len())?;
    let mut here = from;
    while !path.has(here) {
        path.push(here)?;
        here = next_on_walk(imports, taken, here);
    }
    let first = place_of(path.numbers(), here);
    Ok(Circle {
        path: path.into_vec(),
        first,
    })
}
