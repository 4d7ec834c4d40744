//! Mojom files, as they are compiled, and as they are read literally.

use crate::seeds::source_of;
use check_messages::compare::Verdict;
use mojom_compile::{CompileError, compile, read};
use std::alloc::{AllocError, Global};

/// Compares what comes of a Mojom file. One without a tree is refused; there is no literal reading of tokens.
pub fn judge_mojom(alloc: Global, bytes: &[u8]) -> Result<Verdict, AllocError> {
    match read(alloc, bytes) {
        Ok(_tree) => {}
        Err(CompileError::Refused(_)) => return Ok(Verdict::Refused),
        Err(CompileError::Memory) => return Err(AllocError),
    }
    let source = source_of(alloc, bytes)?;
    let outcome = check_names::compare::compare(alloc, &[source])?;
    if outcome.difference.is_some() {
        return Ok(Verdict::Differs);
    }
    if outcome.word.is_some() {
        return Ok(Verdict::Refused);
    }
    Ok(Verdict::Stands)
}

/// Lets the compiler alone judge a Mojom file.
pub fn compile_alone(alloc: Global, bytes: &[u8]) -> Result<(), AllocError> {
    let source = source_of(alloc, bytes)?;
    let _schema = compile(alloc, &[source]).ok();
    Ok(())
}
