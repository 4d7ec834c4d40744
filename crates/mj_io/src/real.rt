//! Real files. They say nothing of what they hold, but which fetches were made, and count their faults.

ghost use Rattle.std.specs.Prelude.{◌≡◌, ◌+◌, ◌≤◌, [], length, None, IfOk};
ghost use Rattle.std.specs.Io.{StartsWith};
ghost use Rattle.mj_io.specs.Fetches.{fetches_of, read_of};
ghost use Rattle.mj_io.specs.steps.Reading.{ReadUpTo, TakesAtMost};

use crate::fetches::{FetchMade, Trace, noted};
use crate::{Fetched, Files, FilesError};
use std::alloc::Global;
use std::fs::File;
use std::io::Read;

/// How many bytes are read at once.
const PIECE: usize = 4096;

/// Real files.
#[derive(Drop)]
pub struct RealFiles<'r, R: std::rt::Files> {
    rt: &'r R,
    faults: u64,
    made: Trace<FetchMade>,
}

impl<'r, R: std::rt::Files> RealFiles<'r, R> {
    /// The files that the runtime reaches.
    pub fn new(rt: &'r R) -> RealFiles<'r, R>
        ensures faults { result.faults ≡ 0 }
        ensures fetches { fetches_of result.made ≡ [] }
        ensures read { read_of result.made ≡ [] }
    {
        RealFiles {
            rt,
            faults: 0,
            made: Trace::Empty,
        }
    }
}

impl<R: std::rt::Files> Files for RealFiles<'_, R> {
    ghost state = { λ s. record { held = None; faults = s.faults; faults_on_present = s.faults; fetches = fetches_of s.made; read = read_of s.made } };

    fn fetch(
        &mut self,
        _alloc: Global,
        name: &str,
        limit: u64,
        into: &mut Vec<u8>,
    ) -> Result<Fetched, FilesError> {
        let start = into.len();
        let answer = read_file(self.rt, name, limit, into);
        if let Err(FilesError::Failed) = answer {
            self.faults = self.faults.saturating_add(1);
            return noted(&mut self.made, name, answer, start, into);
        }
        noted(&mut self.made, name, answer, start, into)
    }
}

/// Appends the bytes of the file of that name, if it is at most `limit` bytes.
fn read_file<R: std::rt::Files>(
    rt: &R,
    name: &str,
    limit: u64,
    into: &mut Vec<u8>,
) -> Result<Fetched, FilesError>
    ensures kept { StartsWith into.new.items into.old.items }
    ensures short { length into.new.items ≤ length into.old.items + limit }
{
    match File::open(rt, name) {
        Ok(mut file) => read_up_to(&mut file, limit, into),
        Err(_) => Err(FilesError::Failed),
    }
}

/// Appends what the reader has left, if it is at most `limit` bytes. Reads at most `limit + 1`.
fn read_up_to<R: Read>(
    reader: &mut R,
    limit: u64,
    into: &mut Vec<u8>,
) -> Result<Fetched, FilesError>
    ensures read { IfOk result (λ fetched. ReadUpTo (R.remaining reader.old) fetched limit into.old.items into.new.items) }
    ensures took { TakesAtMost (limit + 1) (R.remaining reader.old) (R.remaining reader.new) }
    ensures kept { StartsWith into.new.items into.old.items }
    ensures short { length into.new.items ≤ length into.old.items + limit }
{
    let mut left = limit;
    let mut piece = [0u8; PIECE];
    for _ in 0..u64::MAX {
        let room = left.saturating_add(1).min(PIECE as u64) as usize;
        match reader.read(&mut piece[..room]) {
            Ok(0) => return Ok(Fetched::Whole),
            Ok(count) => {
                if count as u64 > left {
                    return Ok(Fetched::Longer);
                }
                left -= count as u64;
                if into.extend_from_slice(&piece[..count]).is_err() {
                    return Err(FilesError::Memory);
                }
            }
            Err(_) => return Err(FilesError::Failed),
        }
    }
    Err(FilesError::Failed)
}
