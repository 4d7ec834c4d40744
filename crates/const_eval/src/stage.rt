//! What files are evaluated to.

ghost use Rattle.std.specs.Prelude.{◌≡◌, None, Err, IfOk, IfErr};
ghost use Rattle.mojom_files.specs.declared.refusal.Refusal.{Refusal};
ghost use Rattle.mojom_files.specs.Refusals.{best_of};
ghost use Rattle.const_eval.specs.Consts.{AreConsts};
ghost use Rattle.const_eval.specs.Evaluated.{const_refusals, const_refusal, IsEvaluated, IsConstRefused};

use crate::consts::Consts;
use crate::definitions::check_file;
use crate::error::ConstError;
use crate::here::Here;
use crate::origins::origins;
use crate::things::things_of_files;
use const_meanings::meanings;
use mj_base::Items;
use module_resolver::Names;
use mojom_files::{NamedFile, Refusal};
use std::alloc::{AllocError, Global};

/// What the constants and enumerators of files mean. There is no memory for 2^32 files or things.
fn consts(alloc: Global, files: &[NamedFile], names: &Names) -> Result<Consts, AllocError>
    ensures { IfOk result (AreConsts files.now names.now.files) }
{
    if u32::try_from(files.len()).is_err() {
        return Err(AllocError);
    }
    let things = things_of_files(alloc, files)?;
    let origins = origins(alloc, files, things.as_slice(), names)?;
    if u32::try_from(origins.len()).is_err() {
        return Err(AllocError);
    }
    let meanings = meanings(alloc, origins.as_slice())?;
    Ok(Consts {
        files: Items::from_vec(things),
        origins: Items::from_vec(origins),
        meanings: Items::from_vec(meanings),
    })
}

/// The first refusal of the file of this number; none exactly where nothing is refused there.
fn refusal_in(
    alloc: Global,
    files: &[NamedFile],
    here: &Here<'_>,
) -> Result<Option<Refusal>, AllocError>
    ensures { IfOk result (λ best. best ≡ best_of None (const_refusals files.now here.now.names.now.files here.now.consts.now here.now.file)) }
{
    let Some(file) = files.get(here.file as usize) else {
        return Ok(None);
    };
    let Some(things) = here.consts.files.as_slice().get(here.file as usize) else {
        return Ok(None);
    };
    let mut best = None;
    check_file(alloc, &mut best, here, file, things)?;
    Ok(best)
}

/// The first refusal of all files in this order; none exactly where nothing is refused.
fn refusal(
    alloc: Global,
    files: &[NamedFile],
    order: &[u32],
    names: &Names,
    consts: &Consts,
) -> Result<Option<Refusal>, AllocError>
    ensures { IfOk result (λ first. first ≡ const_refusal files.now order.now names.now.files consts.now) }
{
    for file in order {
        let here = Here {
            consts,
            names,
            file: *file,
        };
        let first = refusal_in(alloc, files, &here)?;
        if first.is_some() {
            return Ok(first);
        }
    }
    Ok(None)
}

/// What each constant and enumerator of files means, of which these are the names and the resolved
/// order; or the first refusal of constants and numbers: in the first file in that order that has any,
/// the one that comes first by place and rank. More than 2^32 - 1 files or things are want of memory.
pub fn evaluate(
    alloc: Global,
    files: &[NamedFile],
    order: &[u32],
    names: &Names,
) -> Result<Consts, ConstError>
    ensures ok { IfOk result (IsEvaluated files.now order.now names.now.files) }
    ensures refused { (refusal : Refusal) → result ≡ Err (ConstError.Refused refusal) → IsConstRefused files.now order.now names.now.files refusal }
{
    let consts = consts(alloc, files, names)?;
    match refusal(alloc, files, order, names, &consts)? {
        Some(refusal) => Err(ConstError::Refused(refusal)),
        None => Ok(consts),
    }
}
