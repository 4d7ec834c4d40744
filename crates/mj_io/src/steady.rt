//! Files in memory that never fail but for a missing name.

ghost use Rattle.std.specs.Prelude.{◌≡◌, ◌≤◌, ◌+◌, ◌↔◌, map, length, IfOk, IfErr, OnOk, Err};
ghost use Rattle.std.specs.Io.{StartsWith};
ghost use Rattle.mj_io.specs.Outside.{FetchedFrom, FailedFrom, FilesGoOn, CountedFor, Noted};
ghost use Rattle.mj_io.specs.InMemory.{named, unfetched, IsAbsent};

use crate::fetches::{FetchMade, Trace, noted};
use crate::memory::{copy, find};
use crate::{Fetched, Files, FilesError, NamedFile};
use std::alloc::Global;

/// Files in memory that are always fetched where their name is there. Of two files of one name the
/// first counts. No fault is ever counted on a name that is there.
#[derive(Drop)]
pub struct SteadyFiles {
    files: Vec<NamedFile>,
    faults: u64,
    made: Trace<FetchMade>,
}

impl SteadyFiles {
    ghost use Rattle.mj_io.specs.InMemory.{steady_state};

    /// The files.
    pub fn new(files: Vec<NamedFile>) -> SteadyFiles
        ensures { steady_state result ≡ unfetched (map named files.items) }
    {
        SteadyFiles {
            files,
            faults: 0,
            made: Trace::Empty,
        }
    }
}

impl Files for SteadyFiles {
    ghost use Rattle.mj_io.specs.InMemory.{steady_state, steady_files_of};

    ghost state = { steady_state };

    fn fetch(
        &mut self,
        _alloc: Global,
        name: &str,
        limit: u64,
        into: &mut Vec<u8>,
    ) -> Result<Fetched, FilesError>
        ensures on { FilesGoOn (steady_state self.old) (steady_state self.new) }
        ensures fetched { IfOk result (λ fetched. FetchedFrom (steady_state self.old).held fetched name.now limit into.old.items into.new.items) }
        ensures failed { IfErr result (λ error. FailedFrom error name.now (steady_state self.old) (steady_state self.new)) }
        ensures counted { IfErr result (λ error. CountedFor error (steady_state self.old).faults (steady_state self.new).faults) }
        ensures uncounted { OnOk result ((steady_state self.new).faults ≡ (steady_state self.old).faults) }
        ensures kept { StartsWith into.new.items into.old.items }
        ensures short { length into.new.items ≤ length into.old.items + limit }
        ensures noted { Noted (steady_state self.old) (steady_state self.new) name.now result into.old.items into.new.items }

        // A fetch fails exactly where the name isn't there.
        ensures fails { (result ≡ Err FilesError.Failed) ↔ IsAbsent (steady_files_of self.old) name.now }
    {
        let start = into.len();
        match find(self.files.as_slice(), name) {
            None => {
                self.faults = self.faults.saturating_add(1);
                noted(&mut self.made, name, Err(FilesError::Failed), start, into)
            }
            Some(bytes) => {
                let answer = copy(bytes, limit, into);
                noted(&mut self.made, name, answer, start, into)
            }
        }
    }
}
