//! Files and sinks: what a program reads, and where it writes. They say what they hold, where they
//! can, and count their faults; files say which fetches were made.
#![tactic(auto)]

ghost use Rattle.std.specs.Prelude.{◌≡◌, ◌≢◌, ◌+◌, ◌≤◌, [], length, IfOk, IfErr, OnOk, OnErr};
ghost use Rattle.std.specs.Io.{StartsWith};
ghost use Rattle.mj_io.specs.Outside.{Rose, FilesState, SinkState, FetchedFrom, FailedFrom, FilesGoOn, CountedFor, Noted, Wrote, WroteSome, after_fault, taken_by};

mod fetches;
mod memory;
mod memory_sink;
mod real;
mod steady;
mod writer;

pub use memory::{MemoryFiles, NamedFile};
pub use memory_sink::MemorySink;
pub use real::RealFiles;
use std::alloc::Global;
pub use steady::SteadyFiles;
pub use writer::WriterSink;

/// Whether a file was fetched whole, or has more bytes than the limit.
#[derive(Clone, Copy)]
pub enum Fetched {
    Whole,
    Longer,
}

/// Why a file was not fetched. A name that isn't there is a fault.
#[derive(Clone, Copy)]
pub enum FilesError {
    Failed,
    Memory,
}

/// Why nothing was written.
#[derive(Clone, Copy)]
pub enum SinkError {
    Failed,
}

/// Files by their names, which no call changes.
pub trait Files {
    // the files, where it says what it holds, the counts of faults, and the fetches made
    ghost state: { Self → FilesState };

    /// Appends the bytes of the file to `into` if there are at most `limit`, and else answers
    /// `Longer`. Takes at most `limit + 1` bytes from outside.
    ///
    /// # Errors
    ///
    /// `Failed` where the name isn't there or the file can't be read, which is counted as a fault,
    /// and `Memory`.
    fn fetch(
        &mut self,
        alloc: Global,
        name: &str,
        limit: u64,
        into: &mut Vec<u8>,
    ) -> Result<Fetched, FilesError>
        ensures on { FilesGoOn (state self.old) (state self.new) }
        ensures fetched { IfOk result (λ fetched. FetchedFrom (state self.old).held fetched name.now limit into.old.items into.new.items) }
        ensures failed { IfErr result (λ error. FailedFrom error name.now (state self.old) (state self.new)) }

        // A fetch that failed is counted once, and no other is.
        ensures counted { IfErr result (λ error. CountedFor error (state self.old).faults (state self.new).faults) }
        ensures uncounted { OnOk result ((state self.new).faults ≡ (state self.old).faults) }

        // Whatever the answer, `into` begins with what it held, and has at most `limit` bytes more.
        ensures kept { StartsWith into.new.items into.old.items }
        ensures short { length into.new.items ≤ length into.old.items + limit }

        // Each fetch is noted with its answer, behind those before it, and the bytes of a whole file with it.
        ensures noted { Noted (state self.old) (state self.new) name.now result into.old.items into.new.items };
}

/// Takes a text in pieces.
pub trait Sink {
    // the text written, where it says what it holds, and the count of faults
    ghost state: { Self → SinkState };

    /// Takes a front of the piece, and says how many bytes that is.
    ///
    /// # Errors
    ///
    /// `Failed` where nothing could be written, which is counted as a fault.
    fn write(&mut self, piece: &[u8]) -> Result<usize, SinkError>
        ensures count { IfOk result (λ n. n ≤ length piece.now) }
        ensures wrote { Wrote (state self.old) (state self.new) (taken_by result piece.now) }
        // Nothing is taken of a piece that isn't empty only where a fault is counted.
        ensures stuck { IfOk result (λ n. n ≡ 0 → piece.now ≢ [] → Rose (state self.old).faults (state self.new).faults) }
        ensures failed { OnErr result (Rose (state self.old).faults (state self.new).faults) }

        // A write that failed is counted once, as is one that takes nothing of a piece that isn't empty, and no other is.
        ensures counted { OnErr result ((state self.new).faults ≡ after_fault (state self.old).faults) }
        ensures stuck_once { IfOk result (λ n. n ≡ 0 → piece.now ≢ [] → (state self.new).faults ≡ after_fault (state self.old).faults) }
        ensures uncounted { IfOk result (λ n. n ≢ 0 → (state self.new).faults ≡ (state self.old).faults) }
        ensures uncounted_empty { OnOk result (piece.now ≡ [] → (state self.new).faults ≡ (state self.old).faults) };
}

/// Writes the whole text, in as many pieces as the sink wants.
///
/// # Errors
///
/// `Failed` where the sink failed or took nothing. A front of the text may have been written.
#[tactic(auto, using(crate::proofs::Pieces::wrote_none))]
pub fn write_all<S: Sink>(sink: &mut S, text: &[u8]) -> Result<(), SinkError>
    ensures whole { OnOk result (Wrote (S.state sink.old) (S.state sink.new) text.now) }
    ensures part { OnErr result (WroteSome (S.state sink.old) (S.state sink.new) text.now) }
    ensures failed { OnErr result (Rose (S.state sink.old).faults (S.state sink.new).faults) }

    // Nothing is written behind a write that failed: one fault is counted then, and else none.
    ensures counted { OnErr result ((S.state sink.new).faults ≡ after_fault (S.state sink.old).faults) }
    ensures uncounted { OnOk result ((S.state sink.new).faults ≡ (S.state sink.old).faults) }
{
    let mut done = 0;
    while done < text.len() {
        let count = sink.write(&text[done..])?;
        if count == 0 {
            return Err(SinkError::Failed);
        }
        done += count;
    }
    Ok(())
}
