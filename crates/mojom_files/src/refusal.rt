//! Refusals, and the first of them.

ghost use Rattle.std.specs.Prelude.{◌≡◌, List, None, Some};
ghost use Rattle.mojom_files.specs.declared.refusal.Refusal.{Refusal};
ghost use Rattle.mojom_files.specs.Refusals.{best_of, sooner, IsAnswered};

use crate::cause::Cause;

/// A refusal: the number of its file among those that were given, the place there in bytes from 0,
/// and the cause.
#[derive(Drop)]
pub struct Refusal {
    pub file: u32,
    pub at: u64,
    pub cause: Cause,
}

impl Refusal {
    ghost use Rattle.std.specs.Prelude.{◌≡◌};
    ghost use Rattle.mojom_files.specs.Refusals.{comes_before};

    /// Whether this comes before another of the same file.
    fn comes_before(&self, other: &Refusal) -> bool
        ensures { result ≡ comes_before self.now other.now }
    {
        self.at < other.at || self.at == other.at && self.cause.rank() < other.cause.rank()
    }
}

/// Keeps the next refusal where it comes before the best so far.
pub fn keep(best: &mut Option<Refusal>, next: Refusal)
    ensures { best.new ≡ sooner best.old next }
{
    match best {
        Some(known) if !next.comes_before(known) => {}
        _ => *best = Some(next),
    }
}

/// What is kept of refusals is the first of them: this is a law and does nothing.
pub fn best_is_first()
    ensures { (refusals : List Refusal) → IsAnswered (best_of None refusals) refusals }
{}
