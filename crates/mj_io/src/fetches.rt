//! The fetches that were made, for clauses alone: of those before the last no byte is kept.

ghost use Rattle.std.specs.Prelude.{◌≡◌, ◌++◌, ◌∷◌, []};
ghost use Rattle.mj_io.specs.Fetches.{listed, fetches_of, read_of};
ghost use Rattle.mj_io.specs.Outside.{fetch_of, read_by};

use crate::{Fetched, FilesError};
use std::snapshot::Snapshot;

/// A list for clauses: the last item, and what stood before it.
#[derive(Drop)]
pub(crate) enum Trace<T> {
    Empty,
    More { before: Snapshot<Trace<T>>, last: T },
}

/// A fetch that was made: its name, its answer, and what it was to append to, from `start` on.
#[derive(Drop)]
pub(crate) struct FetchMade {
    name: Trace<u8>,
    answer: Result<Fetched, FilesError>,
    start: usize,
    into: Snapshot<Vec<u8>>,
}

/// The list with one item more.
fn more<T>(trace: &Trace<T>, last: T) -> Trace<T>
    ensures { listed result ≡ listed trace.now ++ last ∷ [] }
{
    Trace::More {
        before: Snapshot::of(trace),
        last,
    }
}

/// The bytes of a text.
fn bytes_of(text: &str) -> Trace<u8>
    ensures { listed result ≡ text.now }
{
    let mut trace = Trace::Empty;
    for byte in text.as_bytes() {
        trace = more(&trace, *byte);
    }
    trace
}

/// Notes a fetch with its answer, and hands the answer on. It appended to `into`, which had `start`
/// bytes before.
pub(crate) fn noted(
    made: &mut Trace<FetchMade>,
    name: &str,
    answer: Result<Fetched, FilesError>,
    start: usize,
    into: &Vec<u8>,
) -> Result<Fetched, FilesError>
    ensures same { result ≡ answer }
    ensures fetches { fetches_of made.new ≡ fetches_of made.old ++ fetch_of name.now answer ∷ [] }
    ensures read { read_of made.new ≡ read_of made.old ++ read_by answer name.now start into.now.items }
{
    let entry = FetchMade {
        name: bytes_of(name),
        answer,
        start,
        into: Snapshot::of(into),
    };
    *made = more(made, entry);
    answer
}
