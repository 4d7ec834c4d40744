//! Each kind of file and of sink once.

use mj_base::SeqId;
use mj_io::{
    Fetched, Files, FilesError, MemoryFiles, MemorySink, NamedFile, RealFiles, SinkError,
    SteadyFiles, WriterSink, write_all,
};
use std::alloc::{AllocError, Global};
use std::test::Fail;
use step_gate::{Gate, Gates, OpenGate, OpenGates};

/// A file `a` of three bytes, and an empty file.
fn two_files(alloc: Global) -> Result<Vec<NamedFile>, AllocError> {
    let mut files = Vec::new(alloc);
    files.push(NamedFile {
        name: String::from_str(alloc, "a")?,
        bytes: b"abc".to_vec(alloc)?,
    })?;
    files.push(NamedFile {
        name: String::from_str(alloc, "empty")?,
        bytes: Vec::new(alloc),
    })?;
    Ok(files)
}

/// What a fetch of that name answers.
fn said<F: Files>(
    files: &mut F,
    alloc: Global,
    name: &str,
    limit: u64,
    into: &mut Vec<u8>,
) -> &'static str {
    match files.fetch(alloc, name, limit, into) {
        Ok(Fetched::Whole) => "whole",
        Ok(Fetched::Longer) => "longer",
        Err(FilesError::Failed) => "failed",
        Err(FilesError::Memory) => "memory",
    }
}

#[test]
fn memory_files(rt: HostRuntime) -> Result<(), Fail> {
    let alloc = rt.alloc();
    let failing = [3u64].to_vec(alloc)?;
    let mut files = MemoryFiles::new(two_files(alloc)?, failing);
    let mut into = b"-".to_vec(alloc)?;
    assert_eq!(rt; said(&mut files, alloc, "a", 2, &mut into), "longer");
    assert_eq!(rt; said(&mut files, alloc, "a", 3, &mut into), "whole");
    assert_eq!(rt; said(&mut files, alloc, "b", 3, &mut into), "failed");
    assert_eq!(rt; said(&mut files, alloc, "a", 3, &mut into), "failed");
    assert_eq!(rt; said(&mut files, alloc, "empty", 0, &mut into), "whole");
    assert_eq!(rt; into.as_slice(), b"-abc".as_slice());
    Ok(())
}

#[test]
fn steady_files(rt: HostRuntime) -> Result<(), Fail> {
    let alloc = rt.alloc();
    let mut files = SteadyFiles::new(two_files(alloc)?);
    let mut into = Vec::new(alloc);
    assert_eq!(rt; said(&mut files, alloc, "a", 3, &mut into), "whole");
    assert_eq!(rt; said(&mut files, alloc, "b", 3, &mut into), "failed");
    assert_eq!(rt; into.as_slice(), b"abc".as_slice());
    Ok(())
}

#[test]
fn a_sink_that_takes_few_bytes(rt: HostRuntime) {
    let alloc = rt.alloc();
    let mut sink = MemorySink::new(alloc, 2, Vec::new(alloc));
    assert!(rt; matches!(write_all(&mut sink, b"hello"), Ok(())));
    assert_eq!(rt; sink.text(), b"hello".as_slice());
}

#[test]
fn a_sink_that_fails_in_the_middle(rt: HostRuntime) -> Result<(), Fail> {
    let alloc = rt.alloc();
    let mut sink = MemorySink::new(alloc, 2, [1u64].to_vec(alloc)?);
    assert!(rt; matches!(write_all(&mut sink, b"hello"), Err(SinkError::Failed)));
    assert_eq!(rt; sink.text(), b"he".as_slice());
    Ok(())
}

/// A file that each Linux system has, with the text `Linux` and a line feed.
const KNOWN_FILE: &str = "/proc/sys/kernel/ostype";

#[test]
fn real_files(rt: HostRuntime) {
    let alloc = rt.alloc();
    let mut files = RealFiles::new(&rt);
    let mut into = Vec::new(alloc);
    assert_eq!(rt;
        said(&mut files, alloc, "/no/such/file", 9, &mut into),
        "failed"
    );
    assert_eq!(rt; said(&mut files, alloc, KNOWN_FILE, 5, &mut into), "longer");
    let mut text = Vec::new(alloc);
    assert_eq!(rt; said(&mut files, alloc, KNOWN_FILE, 6, &mut text), "whole");
    assert_eq!(rt; text.as_slice(), b"Linux\n".as_slice());
    assert_eq!(rt;
        said(&mut files, alloc, "/dev/zero", 5000, &mut into),
        "longer"
    );
}

#[test]
fn standard_output(rt: HostRuntime) {
    let mut out = WriterSink::new(rt.stdout());
    assert!(rt; matches!(write_all(&mut out, b"written\n"), Ok(())));
}

#[test]
fn the_open_gate_does_nothing(_rt: HostRuntime) {
    let mut gate: OpenGate = OpenGates.gate(SeqId(0));
    gate.before(SeqId(0), 0);
    gate.after(SeqId(0), 0);
}
