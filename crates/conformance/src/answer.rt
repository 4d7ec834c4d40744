//! What a call answers, and how two answers differ.

use crate::case::Failing;
use mj_io::{MemoryFiles, MemorySink, NamedFile};
use std::alloc::{AllocError, Global};
use std::io;
use std::io::Print;
use std::sync::Wait;
use std::thread::Threads;
use step_gate::OpenGates;

/// The status that says that the words are faulty. What is said of them is free where none is wanted.
const WRONG_USE: u8 = 2;

/// The status and the texts that a call ends with.
#[derive(Drop)]
pub struct Answer {
    pub status: u8,
    pub out: Vec<u8>,
    pub err: Vec<u8>,
}

/// The status and the texts of a call.
fn answer_of(
    alloc: Global,
    status: u8,
    out: &MemorySink,
    err: &MemorySink,
) -> Result<Answer, AllocError> {
    Ok(Answer {
        status,
        out: out.text().to_vec(alloc)?,
        err: err.text().to_vec(alloc)?,
    })
}

/// Runs the product over files and sinks in memory, of which some calls fail, or take few bytes.
pub fn run<R: Wait + Threads + Sync>(
    rt: &R,
    alloc: Global,
    words: &[String],
    files: Vec<NamedFile>,
    failing: Failing,
) -> Result<Answer, AllocError> {
    let mut files = MemoryFiles::new(files, failing.fetches);
    let mut out = MemorySink::new(alloc, failing.most_out, failing.out);
    let mut err = MemorySink::new(alloc, failing.most_err, failing.err);
    let status = mojo_tool::mojo_main(rt, alloc, words, &mut files, &mut out, &mut err, &OpenGates);
    answer_of(alloc, status, &out, &err)
}

impl Answer {
    /// Whether the text on `err` is settled.
    fn has_settled_err(&self) -> bool {
        self.status != WRONG_USE || !self.err.is_empty()
    }

    /// Whether the answer is the one that is wanted.
    pub fn is_wanted(&self, wanted: &Answer) -> bool {
        self.status == wanted.status
            && self.out.as_slice() == wanted.out.as_slice()
            && (!wanted.has_settled_err() || self.err.as_slice() == wanted.err.as_slice())
    }

    /// Prints how the answer differs from the one that is wanted.
    pub fn print_against<P: Print>(&self, rt: &P, wanted: &Answer) -> io::Result<()> {
        if self.status != wanted.status {
            println!(rt;
                "  status: {} is wanted, {} came",
                wanted.status, self.status
            )?;
        }
        print_texts(rt, "out", wanted.out.as_slice(), self.out.as_slice())?;
        if wanted.has_settled_err() {
            print_texts(rt, "err", wanted.err.as_slice(), self.err.as_slice())?;
        }
        Ok(())
    }
}

/// Prints the first line in which the texts differ, if they do.
fn print_texts<P: Print>(rt: &P, which: &str, wanted: &[u8], came: &[u8]) -> io::Result<()> {
    if wanted == came {
        return Ok(());
    }
    let same = wanted
        .split(|byte| *byte == b'\n')
        .zip(came.split(|byte| *byte == b'\n'))
        .take_while(|(wanted, came)| wanted == came)
        .count();
    println!(rt; "  {which} differs in line {}", same.saturating_add(1))?;
    print_line(rt, "wanted", wanted.split(|byte| *byte == b'\n').nth(same))?;
    print_line(rt, "came", came.split(|byte| *byte == b'\n').nth(same))
}

/// Prints a line, or that the text has none there.
fn print_line<P: Print>(rt: &P, whose: &str, line: Option<&[u8]>) -> io::Result<()> {
    match line {
        Some(line) => println!(rt; "    {whose}: {}", line.escape_ascii()),
        None => println!(rt; "    {whose}: the text ended before"),
    }
}
