//! How lists stand in a line.

use crate::shown::{ShownPending, ShownThing};
use bind_model::PendingId;
use handle_table::Thing;
use std::fmt;

/// Things behind another one, each behind a comma.
#[derive(Clone, Copy)]
struct MoreThings<'a>(&'a [Thing]);

impl fmt::Display for MoreThings<'_> {
    ghost use Rattle.std.specs.Prelude.{Some, ◌∷◌};
    ghost use Rattle.std.specs.List.{flat_map};
    ghost use Rattle.history_text.specs.History.{thing_text};

    ghost output = { λ x. Some (flat_map (λ thing. 44 ∷ thing_text thing) x.0.now) };

    fn fmt<W: fmt::Write>(&self, f: &mut fmt::Formatter<W>) -> fmt::Result {
        for thing in self.0 {
            write!(f, ",{}", ShownThing(*thing))?;
        }
        Ok(())
    }
}

/// Pending endpoints behind another one, each behind a comma.
#[derive(Clone, Copy)]
struct MorePendings<'a>(&'a [PendingId]);

impl fmt::Display for MorePendings<'_> {
    ghost use Rattle.std.specs.Prelude.{Some, ◌∷◌};
    ghost use Rattle.std.specs.List.{flat_map};
    ghost use Rattle.history_text.specs.History.{pending_text};

    ghost output = { λ x. Some (flat_map (λ pending. 44 ∷ pending_text pending) x.0.now) };

    fn fmt<W: fmt::Write>(&self, f: &mut fmt::Formatter<W>) -> fmt::Result {
        for pending in self.0 {
            write!(f, ",{}", ShownPending(*pending))?;
        }
        Ok(())
    }
}

/// Things, as `[e0.0,t0.0]`.
#[derive(Clone, Copy)]
pub(crate) struct ShownThings<'a>(pub(crate) &'a [Thing]);

impl fmt::Display for ShownThings<'_> {
    ghost use Rattle.std.specs.Prelude.{Some};
    ghost use Rattle.history_text.specs.History.{things_text};

    ghost output = { λ x. Some (things_text x.0.now) };

    fn fmt<W: fmt::Write>(&self, f: &mut fmt::Formatter<W>) -> fmt::Result {
        match self.0 {
            [] => write!(f, "[]"),
            [first, rest @ ..] => write!(f, "[{}{}]", ShownThing(*first), MoreThings(rest)),
        }
    }
}

/// Pending endpoints, as `[pe0.0#1,pe0.0#2]`.
#[derive(Clone, Copy)]
pub(crate) struct ShownPendings<'a>(pub(crate) &'a [PendingId]);

impl fmt::Display for ShownPendings<'_> {
    ghost use Rattle.std.specs.Prelude.{Some};
    ghost use Rattle.history_text.specs.History.{pendings_text};

    ghost output = { λ x. Some (pendings_text x.0.now) };

    fn fmt<W: fmt::Write>(&self, f: &mut fmt::Formatter<W>) -> fmt::Result {
        match self.0 {
            [] => write!(f, "[]"),
            [first, rest @ ..] => write!(f, "[{}{}]", ShownPending(*first), MorePendings(rest)),
        }
    }
}

/// Handles and then pending endpoints in one list, as `[e0.0,pe0.1#1]`.
#[derive(Clone, Copy)]
pub(crate) struct ShownTokens<'a> {
    pub handles: &'a [Thing],
    pub pendings: &'a [PendingId],
}

impl fmt::Display for ShownTokens<'_> {
    ghost use Rattle.std.specs.Prelude.{Some};
    ghost use Rattle.history_text.specs.History.{tokens_text};

    ghost output = { λ x. Some (tokens_text x.handles.now x.pendings.now) };

    fn fmt<W: fmt::Write>(&self, f: &mut fmt::Formatter<W>) -> fmt::Result {
        match self.handles {
            [] => write!(f, "{}", ShownPendings(self.pendings)),
            [first, rest @ ..] => write!(
                f,
                "[{}{}{}]",
                ShownThing(*first),
                MoreThings(rest),
                MorePendings(self.pendings)
            ),
        }
    }
}
