//! What a sequence has to do behind the joins: an automatic reply that is due, or else its next line.

ghost use Rattle.std.specs.Prelude.{◌≡◌, ◌+◌, IfNone, IfOk, IfSome, count_by, slice_get};
ghost use Rattle.std.specs.Option.{option_copied};
ghost use Rattle.script_run.specs.steps.Following.{AreFresh, has_next, planned};

use crate::order::lines_of;
use call_script::{AutoReply, Line, Script};
use std::alloc::{AllocError, Global};

/// The lines of a sequence, how many of them it did, and the automatic reply that is due, which comes
/// before its next line.
#[derive(Drop)]
pub struct Agenda<'s> {
    pub lines: Vec<&'s Line>,
    pub done: usize,
    pub due: Option<&'s AutoReply>,
}

impl<'s> Agenda<'s> {
    /// Whether anything is left to do.
    fn is_left(&self) -> bool
        ensures { result ≡ has_next self.now }
    {
        self.due.is_some() || self.done < self.lines.len()
    }

    /// The next line.
    pub fn next_line(&mut self) -> Option<&'s Line>
        ensures line { option_copied result ≡ slice_get (planned self.old) self.old.done }
        ensures lines { self.new.lines ≡ self.old.lines }
        ensures due { self.new.due ≡ self.old.due }
        ensures done { IfSome result (λ line. self.new.done ≡ self.old.done + 1) }
        ensures same { IfNone result (self.new.done ≡ self.old.done) }
    {
        let line = self.lines.get(self.done).copied()?;
        self.done += 1;
        Some(line)
    }
}

/// What each sequence has to do first.
pub fn all_agendas(alloc: Global, script: &Script) -> Result<Vec<Agenda<'_>>, AllocError>
    ensures { IfOk result (λ agendas. AreFresh script.now agendas.items) }
{
    let mut agendas = Vec::new(alloc);
    for seq in 0..script.seqs {
        let lines = lines_of(alloc, script.lines.as_slice(), seq)?;
        agendas.push(Agenda {
            lines,
            done: 0,
            due: None,
        })?;
    }
    Ok(agendas)
}

/// How many of these have anything left.
pub fn count_left(agendas: &[Agenda<'_>]) -> usize
    ensures { result ≡ count_by has_next agendas.now }
{
    agendas.iter().filter(|agenda| agenda.is_left()).count()
}
