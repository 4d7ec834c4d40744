//! How ends, tokens and endpoints stand in a line.

use bind_model::{Closing, PendingId, ResponderId};
use handle_table::{Thing, TokenId};
use mj_base::EndId;
use std::fmt;

/// An end, as `e0.1`.
#[derive(Clone, Copy)]
pub(crate) struct ShownEnd(pub(crate) EndId);

impl fmt::Display for ShownEnd {
    ghost use Rattle.std.specs.Prelude.{Some};
    ghost use Rattle.history_text.specs.History.{end_text};

    ghost output = { λ x. Some (end_text x.0) };

    fn fmt<W: fmt::Write>(&self, f: &mut fmt::Formatter<W>) -> fmt::Result {
        write!(f, "e{}.{}", self.0.seq, self.0.serial)
    }
}

/// A token, as `t0.1`.
#[derive(Clone, Copy)]
pub(crate) struct ShownToken(pub(crate) TokenId);

impl fmt::Display for ShownToken {
    ghost use Rattle.std.specs.Prelude.{Some};
    ghost use Rattle.history_text.specs.History.{token_text};

    ghost output = { λ x. Some (token_text x.0) };

    fn fmt<W: fmt::Write>(&self, f: &mut fmt::Formatter<W>) -> fmt::Result {
        write!(f, "t{}.{}", self.0.seq, self.0.serial)
    }
}

/// A moment behind a word, where there is one.
#[derive(Clone, Copy)]
pub(crate) struct ShownAt(pub(crate) Option<i64>);

impl fmt::Display for ShownAt {
    ghost use Rattle.std.specs.Prelude.{Some};
    ghost use Rattle.history_text.specs.History.{at_text};

    ghost output = { λ x. Some (at_text x.0) };

    fn fmt<W: fmt::Write>(&self, f: &mut fmt::Formatter<W>) -> fmt::Result {
        match self.0 {
            Some(moment) => write!(f, "-at {moment}"),
            None => f.write_str(""),
        }
    }
}

/// An end as `e0.1`, or a token as `t0.1`.
#[derive(Clone, Copy)]
pub(crate) struct ShownThing(pub(crate) Thing);

impl fmt::Display for ShownThing {
    ghost use Rattle.std.specs.Prelude.{Some};
    ghost use Rattle.history_text.specs.History.{thing_text};

    ghost output = { λ x. Some (thing_text x.0) };

    fn fmt<W: fmt::Write>(&self, f: &mut fmt::Formatter<W>) -> fmt::Result {
        match self.0 {
            Thing::End(x) => write!(f, "{}", ShownEnd(x)),
            Thing::Token(t) => write!(f, "{}", ShownToken(t)),
        }
    }
}

/// An endpoint by its end and its id there, as `e0.1#5`.
#[derive(Clone, Copy)]
pub(crate) struct ShownEndpoint(pub(crate) EndId, pub(crate) u32);

impl fmt::Display for ShownEndpoint {
    ghost use Rattle.std.specs.Prelude.{Some};
    ghost use Rattle.history_text.specs.History.{endpoint_text};

    ghost output = { λ x. Some (endpoint_text x.0 x.1) };

    fn fmt<W: fmt::Write>(&self, f: &mut fmt::Formatter<W>) -> fmt::Result {
        write!(f, "{}#{}", ShownEnd(self.0), self.1)
    }
}

/// A pending endpoint, as `pe0.1#5`.
#[derive(Clone, Copy)]
pub(crate) struct ShownPending(pub(crate) PendingId);

impl fmt::Display for ShownPending {
    ghost use Rattle.std.specs.Prelude.{Some};
    ghost use Rattle.history_text.specs.History.{pending_text};

    ghost output = { λ x. Some (pending_text x.0) };

    fn fmt<W: fmt::Write>(&self, f: &mut fmt::Formatter<W>) -> fmt::Result {
        write!(f, "p{}", ShownEndpoint(self.0.end, self.0.id))
    }
}

/// A responder, as `re0.1#5@7.2`.
#[derive(Clone, Copy)]
pub(crate) struct ShownResponder(pub(crate) ResponderId);

impl fmt::Display for ShownResponder {
    ghost use Rattle.std.specs.Prelude.{Some};
    ghost use Rattle.history_text.specs.History.{responder_text};

    ghost output = { λ x. Some (responder_text x.0) };

    fn fmt<W: fmt::Write>(&self, f: &mut fmt::Formatter<W>) -> fmt::Result {
        let responder = self.0;
        write!(
            f,
            "r{}@{}.{}",
            ShownEndpoint(responder.end, responder.id),
            responder.request,
            responder.method
        )
    }
}

/// What is closed.
#[derive(Clone, Copy)]
pub(crate) struct ShownClosing(pub(crate) Closing);

impl fmt::Display for ShownClosing {
    ghost use Rattle.std.specs.Prelude.{Some};
    ghost use Rattle.history_text.specs.History.{closing_text};

    ghost output = { λ x. Some (closing_text x.0) };

    fn fmt<W: fmt::Write>(&self, f: &mut fmt::Formatter<W>) -> fmt::Result {
        match self.0 {
            Closing::Handle(x) => write!(f, "{}", ShownThing(x)),
            Closing::Pending(p) => write!(f, "{}", ShownPending(p)),
            Closing::Responder(r) => write!(f, "{}", ShownResponder(r)),
            Closing::Endpoint(x, id) => write!(f, "{}", ShownEndpoint(x, id)),
        }
    }
}
