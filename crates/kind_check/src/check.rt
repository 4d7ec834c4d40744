//! The check of kinds.

ghost use Rattle.std.specs.Prelude.{◌≡◌, None, IfOk, IfErr};
ghost use Rattle.kind_refusals.specs.KindRefusals.{kinds_refusal};
ghost use Rattle.draft_rows.specs.Drafts.{draft_of};
ghost use Rattle.kind_check.specs.Whys.{IsWhy};

use crate::error::KindError;
use const_eval::Consts;
use draft_rows::{Draft, draft_of};
use kind_refusals::kinds_refusal;
use module_resolver::Names;
use mojom_files::NamedFile;
use std::alloc::Global;

/// The tables of files in resolved order, where fields have no places yet; or the first refusal of
/// kinds, ordinals and versions: of the first file that has any the one that stands first, and at one
/// place the one whose cause has the least `Cause::rank`.
pub fn check_kinds(
    alloc: Global,
    files: &[NamedFile],
    order: &[u32],
    names: &Names,
    consts: &Consts,
) -> Result<Draft, KindError>
    ensures none_refused { IfOk result (λ _. kinds_refusal names.now.files consts.now files.now order.now ≡ None) }
    ensures tables { IfOk result (λ draft. draft ≡ draft_of names.now.files consts.now files.now order.now) }
    ensures why { IfErr result (IsWhy names.now.files consts.now files.now order.now) }
{
    match kinds_refusal(alloc, files, order, names, consts)? {
        Some(refusal) => Err(KindError::Refused(refusal)),
        None => Ok(draft_of(alloc, files, order, names, consts)?),
    }
}
