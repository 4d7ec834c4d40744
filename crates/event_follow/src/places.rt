//! Where sequences are in their lines.

ghost use Rattle.std.specs.Prelude.{◌≡◌, ◌+◌, IfNone, IfOk, IfSome, count_by, slice_get};
ghost use Rattle.std.specs.Option.{option_copied};
ghost use Rattle.event_follow.specs.steps.Places.{AreFresh, IsFresh, has_next, planned};

use bind_model::ResponderId;
use call_script::{AutoReply, Line, Script};
use plain_names::PlainNames;
use script_run::lines_of;
use std::alloc::{AllocError, Global};

/// An automatic reply that is due, and the right that it answers by.
#[derive(Clone, Copy)]
pub(crate) struct DueReply<'s> {
    pub responder: ResponderId,
    pub reply: &'s AutoReply,
}

/// The names of a sequence, its lines, how many of them it did, and the automatic reply that is due, which
/// comes before its next line.
#[derive(Drop)]
pub(crate) struct Place<'s> {
    pub names: PlainNames,
    pub lines: Vec<&'s Line>,
    pub done: usize,
    pub due: Option<DueReply<'s>>,
}

impl<'s> Place<'s> {
    /// Whether anything is left to do.
    fn is_left(&self) -> bool
        ensures { result ≡ has_next self.now }
    {
        self.due.is_some() || self.done < self.lines.len()
    }

    /// The next line.
    pub(crate) fn next_line(&mut self) -> Option<&'s Line>
        ensures line { option_copied result ≡ slice_get (planned self.old) self.old.done }
        ensures names { self.new.names ≡ self.old.names }
        ensures lines { self.new.lines ≡ self.old.lines }
        ensures due { self.new.due ≡ self.old.due }
        ensures done { IfSome result (λ line. self.new.done ≡ self.old.done + 1) }
        ensures same { IfNone result (self.new.done ≡ self.old.done) }
    {
        let line = self.lines.get(self.done).copied()?;
        self.done += 1;
        Some(line)
    }
}

/// A sequence before its first line, with the names of the script.
fn open_place(alloc: Global, script: &Script, seq: u32) -> Result<Place<'_>, AllocError>
    ensures { IfOk result (IsFresh script.now seq) }
{
    let mut names = PlainNames::new(alloc);
    let Ok(()) = names.add_names(script.names) else {
        return Err(AllocError);
    };
    let lines = lines_of(alloc, script.lines.as_slice(), seq)?;
    Ok(Place {
        names,
        lines,
        done: 0,
        due: None,
    })
}

/// All sequences before their first lines.
pub(crate) fn open_places(alloc: Global, script: &Script) -> Result<Vec<Place<'_>>, AllocError>
    ensures { IfOk result (λ places. AreFresh script.now places.items) }
{
    let mut places = Vec::new(alloc);
    for seq in 0..script.seqs {
        let place = open_place(alloc, script, seq)?;
        places.push(place)?;
    }
    Ok(places)
}

/// How many of these have anything left.
pub(crate) fn count_left(places: &[Place<'_>]) -> usize
    ensures { result ≡ count_by has_next places.now }
{
    places.iter().filter(|place| place.is_left()).count()
}
