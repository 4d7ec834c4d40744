//! A case: a call of the product, and the answer that is wanted.

use crate::answer::Answer;
use crate::lines::LineError;
use mj_io::NamedFile;
use std::alloc::{AllocError, Global};
use thiserror::Error;

/// A call of the product over files in memory, with the answer that is wanted.
#[derive(Drop)]
pub struct Case {
    pub name: String,
    /// The words of the command line, the program's name first.
    pub words: Vec<String>,
    pub files: Vec<NamedFile>,
    pub failing: Failing,
    pub wanted: Answer,
}

/// The most bytes that a sink takes at once where a case says nothing else, so that a long text goes in several writes.
const MOST_AT_ONCE: usize = 1000;

/// The numbers, from 0, of the calls that are to fail: fetches, and writes to standard output and to
/// standard error; and how many bytes a write to either takes at most.
#[derive(Drop)]
pub struct Failing {
    pub fetches: Vec<u64>,
    pub out: Vec<u64>,
    pub err: Vec<u64>,
    pub most_out: usize,
    pub most_err: usize,
}

impl Case {
    /// A case in which nothing fails, and that wants status 0 and no text.
    pub fn new(alloc: Global, name: &str) -> Result<Case, AllocError> {
        Ok(Case {
            name: String::from_str(alloc, name)?,
            words: Vec::new(alloc),
            files: Vec::new(alloc),
            failing: Failing {
                fetches: Vec::new(alloc),
                out: Vec::new(alloc),
                err: Vec::new(alloc),
                most_out: MOST_AT_ONCE,
                most_err: MOST_AT_ONCE,
            },
            wanted: Answer {
                status: 0,
                out: Vec::new(alloc),
                err: Vec::new(alloc),
            },
        })
    }
}

/// Why a file of cases was not read.
#[derive(Clone, Copy, Debug, Error)]
pub enum CaseError {
    #[error("it is not there, or too long")]
    NoFile,
    #[error("it is not UTF-8")]
    NotText,
    #[error("line {0} has another form")]
    BadLine(u64),
    #[error("out of memory")]
    Memory,
}

impl From<AllocError> for CaseError {
    fn from(_: AllocError) -> CaseError {
        CaseError::Memory
    }
}

impl CaseError {
    /// The error of a line, with the line's number, counted from 1.
    pub fn at_line(error: LineError, number: u64) -> CaseError {
        match error {
            LineError::BadForm => CaseError::BadLine(number),
            LineError::Memory => CaseError::Memory,
        }
    }
}
