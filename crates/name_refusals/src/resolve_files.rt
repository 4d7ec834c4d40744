//! The names of files, or why they are refused.

ghost use Rattle.std.specs.Prelude.{◌≡◌, ◌++◌, OnOk, IfOk, IfErr, None, fold, slice_get};
ghost use Rattle.mojom_files.specs.Refusals.{best_of};
ghost use Rattle.name_refusals.specs.Known.{with_name};
ghost use Rattle.name_refusals.specs.steps.Trees.{knows, AreKnown};
ghost use Rattle.module_resolver.specs.NamesOf.{names_of};
ghost use Rattle.name_refusals.specs.NameRefusals.{of_file, full_names, refusals_in};
ghost use Rattle.import_order.specs.Errors.{IsFor};
ghost use Rattle.name_refusals.specs.Resolved.{AreNames, IsRefused};

use crate::known_names::KnownNames;
use crate::members::check_definitions;
use crate::repeats::check_repeats;
use import_order::ResolveError;
use module_resolver::{Names, names_of};
use mojom_files::{NamedFile, Refusal, definitions};
use std::alloc::{AllocError, Global};

/// Refuses names of a file, and adds its full names to those that are known from files before it.
fn check_file(
    alloc: Global,
    names: &Names,
    known: &mut KnownNames,
    number: u32,
    file: &NamedFile,
    best: &mut Option<Refusal>,
) -> Result<(), AllocError>
    requires { AreKnown known.old }
    ensures known { OnOk result (AreKnown known.new) }
    ensures kept { OnOk result (best.new ≡ best_of best.old (refusals_in names.now.files (knows known.old) number file.now)) }
    ensures added { OnOk result (knows known.new ≡ fold with_name (knows known.old) (full_names file.now)) }
{
    let found = definitions(alloc, &file.tree)?;
    let views = found.as_slice();
    check_repeats(alloc, number, known, views, best)?;
    check_definitions(alloc, names, number, views, best)
}

/// The first refusal of the names of the file of this number, whose full names are added to those
/// that are known from files before it. A number of no file has none.
fn first_of_file(
    alloc: Global,
    files: &[NamedFile],
    names: &Names,
    known: &mut KnownNames,
    number: u32,
) -> Result<Option<Refusal>, AllocError>
    requires { AreKnown known.old }
    ensures known { OnOk result (AreKnown known.new) }
    ensures first { IfOk result (λ first. first ≡ best_of None (of_file (refusals_in names.now.files (knows known.old) number) (slice_get files.now number))) }
    ensures added { OnOk result (knows known.new ≡ fold with_name (knows known.old) (of_file full_names (slice_get files.now number))) }
{
    let mut best = None;
    if let Some(file) = files.get(number as usize) {
        check_file(alloc, names, known, number, file, &mut best)?;
    }
    Ok(best)
}

/// The names of files, where this is their resolved order, or the first refusal of their names: of
/// the first file in this order that has any, the one that stands first in it. Refuses
/// `DuplicateName`, `UnknownName` and `WrongSort`.
pub fn resolve(alloc: Global, files: &[NamedFile], order: &[u32]) -> Result<Names, ResolveError>
    ensures ok { IfOk result (AreNames files.now order.now) }
    ensures refused { IfErr result (IsFor (IsRefused files.now order.now)) }
{
    let names = names_of(alloc, files, order)?;
    let mut known = KnownNames::new(alloc);
    for number in order {
        if let Some(refusal) = first_of_file(alloc, files, &names, &mut known, *number)? {
            return Err(ResolveError::Refused(refusal));
        }
    }
    Ok(names)
}
