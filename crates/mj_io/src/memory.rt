//! Files in memory, with a list of calls that are to fail.

ghost use Rattle.std.specs.Prelude.{◌≡◌, ◌≤◌, ◌+◌, ◌⊎◌, ◌↔◌, map, length, IfOk, IfErr, OnOk, Some, Err};
ghost use Rattle.std.specs.Io.{StartsWith};
ghost use Rattle.std.specs.Option.{option_map};
ghost use Rattle.mj_io.specs.Outside.{find_file, FetchedOf, FetchedFrom, FailedFrom, FilesGoOn, CountedFor, Noted};
ghost use Rattle.mj_io.specs.InMemory.{named, unfetched, after_call, IsToFail, IsAbsent};

use crate::fetches::{FetchMade, Trace, noted};
use crate::{Fetched, Files, FilesError};
use std::alloc::Global;

/// A file: its name and its bytes.
#[derive(Drop)]
pub struct NamedFile {
    pub name: String,
    pub bytes: Vec<u8>,
}

/// Files in memory. Of two files of one name the first counts.
#[derive(Drop)]
pub struct MemoryFiles {
    files: Vec<NamedFile>,
    failing: Vec<u64>,
    calls: u64,
    faults: u64,
    faults_on_present: u64,
    made: Trace<FetchMade>,
}

impl MemoryFiles {
    ghost use Rattle.mj_io.specs.InMemory.{memory_state, plan_of_files};

    /// The files, and the numbers of the calls of `fetch`, counted from 0, that are to fail.
    pub fn new(files: Vec<NamedFile>, failing: Vec<u64>) -> MemoryFiles
        ensures state { memory_state result ≡ unfetched (map named files.items) }
        ensures plan { plan_of_files result ≡ record { calls = 0; failing = failing.items } }
    {
        MemoryFiles {
            files,
            failing,
            calls: 0,
            faults: 0,
            faults_on_present: 0,
            made: Trace::Empty,
        }
    }
}

impl Files for MemoryFiles {
    ghost use Rattle.mj_io.specs.InMemory.{memory_state, plan_of_files, files_of};

    ghost state = { memory_state };

    fn fetch(
        &mut self,
        _alloc: Global,
        name: &str,
        limit: u64,
        into: &mut Vec<u8>,
    ) -> Result<Fetched, FilesError>
        ensures on { FilesGoOn (memory_state self.old) (memory_state self.new) }
        ensures fetched { IfOk result (λ fetched. FetchedFrom (memory_state self.old).held fetched name.now limit into.old.items into.new.items) }
        ensures failed { IfErr result (λ error. FailedFrom error name.now (memory_state self.old) (memory_state self.new)) }
        ensures counted { IfErr result (λ error. CountedFor error (memory_state self.old).faults (memory_state self.new).faults) }
        ensures uncounted { OnOk result ((memory_state self.new).faults ≡ (memory_state self.old).faults) }
        ensures kept { StartsWith into.new.items into.old.items }
        ensures short { length into.new.items ≤ length into.old.items + limit }
        ensures noted { Noted (memory_state self.old) (memory_state self.new) name.now result into.old.items into.new.items }

        // A fetch fails exactly where its number is in the list or the name isn't there.
        ensures plan { plan_of_files self.new ≡ after_call (plan_of_files self.old) }
        ensures fails { (result ≡ Err FilesError.Failed) ↔ (IsToFail (plan_of_files self.old) ⊎ IsAbsent (files_of self.old) name.now) }
    {
        let start = into.len();
        let fails = self.failing.contains(&self.calls);
        self.calls = self.calls.saturating_add(1);
        match find(self.files.as_slice(), name) {
            None => {
                self.faults = self.faults.saturating_add(1);
                noted(&mut self.made, name, Err(FilesError::Failed), start, into)
            }
            Some(_) if fails => {
                self.faults = self.faults.saturating_add(1);
                self.faults_on_present = self.faults_on_present.saturating_add(1);
                noted(&mut self.made, name, Err(FilesError::Failed), start, into)
            }
            Some(bytes) => {
                let answer = copy(bytes, limit, into);
                noted(&mut self.made, name, answer, start, into)
            }
        }
    }
}

/// The bytes of the first file of that name.
pub(crate) fn find<'a>(files: &'a [NamedFile], name: &str) -> Option<&'a [u8]>
    ensures { option_map (λ bytes. bytes.now) result ≡ find_file (map named files.now) name.now }
{
    for file in files {
        if file.name.as_str() == name {
            return Some(file.bytes.as_slice());
        }
    }
    None
}

/// Appends the bytes, if there are at most `limit`.
pub(crate) fn copy(bytes: &[u8], limit: u64, into: &mut Vec<u8>) -> Result<Fetched, FilesError>
    ensures fetched { IfOk result (λ fetched. FetchedOf fetched limit bytes.now into.old.items into.new.items) }
    ensures failed { IfErr result (λ error. error ≡ FilesError.Memory) }
    ensures kept { StartsWith into.new.items into.old.items }
    ensures short { length into.new.items ≤ length into.old.items + limit }
{
    if bytes.len() as u64 > limit {
        return Ok(Fetched::Longer);
    }
    match into.extend_from_slice(bytes) {
        Ok(()) => Ok(Fetched::Whole),
        Err(_) => Err(FilesError::Memory),
    }
}
