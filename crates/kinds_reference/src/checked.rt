//! The answer of a check.

use crate::const_stage::reasons_of_consts;
use crate::defaults::defaults;
use crate::kind_stage::reasons_of_kinds;
use crate::listing::listing;
use mojom_files::NamedFile;
use names_reference::{
    Given, Reason, Word, first_reason, no_order, order, reasons_of_names, things_of,
};
use std::alloc::{AllocError, Global};

/// What `check` answers of files.
#[derive(Drop)]
pub enum Answer {
    /// The word of the first refusal, and that refusal: `FILE:AT: WHY`.
    Refused(Word, String),
    /// The listing, and the defaults of fields and enums, which the listing lacks.
    Listed { listing: String, defaults: String },
}

/// A step that goes over the files in resolved order.
#[derive(Clone, Copy)]
enum Step {
    Names,
    Consts,
    Kinds,
}

/// The first of the reasons to refuse a file, where there are any.
fn refusal(
    alloc: Global,
    files: &[NamedFile],
    file: usize,
    reasons: &[Reason],
) -> Result<Option<Answer>, AllocError> {
    let (Some(named), Some(first)) = (files.get(file), first_reason(reasons)) else {
        return Ok(None);
    };
    let name = named.name.as_str();
    let at = first.at;
    let why = first.text(alloc)?;
    let why = why.as_str();
    let text = format!(in alloc; "{name}:{at}: {why}")?;
    Ok(Some(Answer::Refused(first.word, text)))
}

/// Why a step refuses the file of this number.
fn reasons_of(
    alloc: Global,
    step: Step,
    given: Given<'_>,
    file: usize,
) -> Result<Vec<Reason>, AllocError> {
    match step {
        Step::Names => reasons_of_names(alloc, given, file),
        Step::Consts => reasons_of_consts(alloc, given, file),
        Step::Kinds => reasons_of_kinds(alloc, given, file),
    }
}

/// The first refusal of a step.
fn refusal_of_step(
    alloc: Global,
    step: Step,
    given: Given<'_>,
) -> Result<Option<Answer>, AllocError> {
    for file in given.order {
        let reasons = reasons_of(alloc, step, given, *file)?;
        let refused = refusal(alloc, given.files, *file, &reasons)?;
        if refused.is_some() {
            return Ok(refused);
        }
    }
    Ok(None)
}

/// The answer of files that have this order.
fn answer_in_order(
    alloc: Global,
    files: &[NamedFile],
    order: &[usize],
) -> Result<Answer, AllocError> {
    let things = things_of(alloc, files)?;
    let given = Given {
        files,
        order,
        things: things.as_slice(),
    };
    for step in [Step::Names, Step::Consts, Step::Kinds] {
        if let Some(refused) = refusal_of_step(alloc, step, given)? {
            return Ok(refused);
        }
    }
    let listing = listing(alloc, given)?;
    let defaults = defaults(alloc, given)?;
    Ok(Answer::Listed { listing, defaults })
}

/// What `check` answers of files, which are given with their names.
pub fn answer_of(alloc: Global, files: &[NamedFile]) -> Result<Answer, AllocError> {
    if let Some((file, reasons)) = no_order(alloc, files)?
        && let Some(refused) = refusal(alloc, files, file, &reasons)?
    {
        return Ok(refused);
    }
    let order = order(alloc, files)?.unwrap_or(Vec::new(alloc));
    answer_in_order(alloc, files, &order)
}
