//! The program: the real files and streams, and the words of the command line.
#![tactic(auto)]

use mj_io::{RealFiles, WriterSink};
use std::alloc::Global;
use std::env::Env;
use std::io::ErrorKind;
use std::process::ExitCode;
use std::{env, io};
use step_gate::OpenGates;

/// The words of the command line, the program's name first.
fn words<R: Env + Alloc<A = Global>>(rt: &R) -> io::Result<Vec<String>> {
    let mut words = Vec::new(rt.alloc());
    for word in env::args(rt)? {
        if words.push(word).is_err() {
            return Err(io::Error::from(ErrorKind::OutOfMemory));
        }
    }
    Ok(words)
}

fn main(rt: HostRuntime) -> ExitCode {
    let words = match words(&rt) {
        Ok(words) => words,
        // A word that isn't UTF-8 is a faulty command line, and is answered like one without words.
        Err(error) if error.kind() == ErrorKind::InvalidData => Vec::new(rt.alloc()),
        Err(_) => return ExitCode::from(5),
    };
    let mut files = RealFiles::new(&rt);
    let mut out = WriterSink::new(rt.stdout());
    let mut err = WriterSink::new(rt.stderr());
    let status = mojo_tool::mojo_main(
        &rt,
        rt.alloc(),
        words.as_slice(),
        &mut files,
        &mut out,
        &mut err,
        &OpenGates,
    );
    ExitCode::from(status)
}
