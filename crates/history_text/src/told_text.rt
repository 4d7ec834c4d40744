//! How replies stand in a line.

ghost use Rattle.std.specs.Prelude.{◌≡◌, ◌++◌, OnOk, codes};
ghost use Rattle.history_text.specs.History.{at_text, flowed_text, told_text, got_text, noted_text, why_text};

use crate::message_text::{push_message, push_text};
use crate::parts::{push_bytes, push_pair, push_shown};
use crate::shown::{ShownAt, ShownEnd, ShownPending, ShownToken};
use crate::shown_lists::{ShownPendings, ShownThings};
use crate::words::{fault_word, message_word};
use bind_model::{BadWhy, Boxed, Flowed, Got, Noted, Notified, Told, Why};
use handle_table::TokenId;
use mj_schema::Schema;
use std::alloc::{AllocError, Global};
use std::fmt;

/// Why a message is bad.
#[derive(Clone, Copy)]
struct ShownBad(BadWhy);

impl fmt::Display for ShownBad {
    ghost use Rattle.std.specs.Prelude.{Some};
    ghost use Rattle.history_text.specs.History.{bad_text};

    ghost output = { λ x. Some (bad_text x.0) };

    fn fmt<W: fmt::Write>(&self, f: &mut fmt::Formatter<W>) -> fmt::Result {
        match self.0 {
            BadWhy::Message(fault) => write!(f, "{} {}", fault_word(fault.kind), fault.at),
            BadWhy::Unasked(request) => write!(f, "unasked {request}"),
            BadWhy::StrangeId(id) => write!(f, "strange-id {id}"),
            BadWhy::TooOld(version) => write!(f, "too-old {version}"),
        }
    }
}

/// Adds why a command is refused.
fn push_why(alloc: Global, out: &mut Vec<u8>, why: Why) -> Result<(), AllocError>
    ensures { OnOk result (out.new.items ≡ out.old.items ++ (codes "no " ++ why_text why)) }
{
    match why {
        Why::NoName => push_text(out, "no no-name"),
        Why::NotPipe => push_text(out, "no not-pipe"),
        Why::Disconnected => push_text(out, "no disconnected"),
        Why::Unbound(id) => push_shown(alloc, out, "no unbound ", id),
        Why::Elsewhere(t) => push_shown(alloc, out, "no elsewhere ", t.0),
        Why::WrongSide => push_text(out, "no wrong-side"),
        Why::WrongMethod => push_text(out, "no wrong-method"),
        Why::WrongTokens => push_text(out, "no wrong-tokens"),
        Why::WrongPipe(id) => push_shown(alloc, out, "no wrong-pipe ", id),
        Why::SelfSend => push_text(out, "no self-send"),
        Why::TooLong => push_text(out, "no too-long"),
        Why::TooManyHandles => push_text(out, "no too-many-handles"),
        Why::Full => push_text(out, "no full"),
        Why::Empty => push_text(out, "no empty"),
        Why::PeerClosed => push_text(out, "no peer-closed"),
        Why::Paused(x) => push_shown(alloc, out, "no paused ", ShownEnd(x)),
        Why::SelfPause => push_text(out, "no self-pause"),
        Why::BadSize(size) => push_shown(alloc, out, "no bad-size ", size),
        Why::NotData => push_text(out, "no not-data"),
        Why::Busy(t) => push_shown(alloc, out, "no busy ", ShownToken(t)),
        Why::Idle => push_text(out, "no idle"),
        Why::Short(n) => push_shown(alloc, out, "no short ", n),
    }
}

/// Adds what a take got.
fn push_got(alloc: Global, out: &mut Vec<u8>, schema: &Schema, got: &Got) -> Result<(), AllocError>
    ensures { OnOk result (out.new.items ≡ out.old.items ++ got_text schema.now got.now) }
{
    push_pair(alloc, out, "", message_word(got.target.side), got.id)?;
    push_text(out, " ")?;
    push_message(alloc, out, schema, got.target, &got.parameters)?;
    let handles = ShownThings(got.handles.as_slice());
    push_pair(alloc, out, " ", got.request, handles)?;
    let pendings = ShownPendings(got.pendings.as_slice());
    push_pair(alloc, out, " ", pendings, ShownThings(got.gone.as_slice()))
}

/// Adds the moment and what a take got.
fn push_taken(
    alloc: Global,
    out: &mut Vec<u8>,
    schema: &Schema,
    got: &Got,
) -> Result<(), AllocError>
    ensures { OnOk result (out.new.items ≡ out.old.items ++ (codes "got" ++ (at_text got.now.moment ++ (codes " " ++ got_text schema.now got.now)))) }
{
    push_shown(alloc, out, "got", ShownAt(got.moment))?;
    push_text(out, " ")?;
    push_got(alloc, out, schema, got)
}

/// The same, where what was got lies apart.
fn push_apart(
    alloc: Global,
    out: &mut Vec<u8>,
    schema: &Schema,
    got: &Boxed<Got>,
) -> Result<(), AllocError>
    ensures { OnOk result (out.new.items ≡ out.old.items ++ (codes "got" ++ (at_text got.now.moment ++ (codes " " ++ got_text schema.now got.now)))) }
{
    push_taken(alloc, out, schema, got.get())
}

/// Adds what a control says.
fn push_noted(alloc: Global, out: &mut Vec<u8>, noted: Noted) -> Result<(), AllocError>
    ensures { OnOk result (out.new.items ≡ out.old.items ++ noted_text noted) }
{
    match noted {
        Noted::Closed(id) => push_shown(alloc, out, "control ", id),
        Noted::Queried(id, Some(version)) => push_pair(alloc, out, "queried ", id, version),
        Noted::Queried(id, None) => push_pair(alloc, out, "queried ", id, "-"),
        Noted::Version(id, version) => push_pair(alloc, out, "version ", id, version),
        Noted::Required(id, version) => push_pair(alloc, out, "required ", id, version),
        Noted::Flushed(flush) => push_shown(alloc, out, "flushed ", flush),
    }
}

/// Adds what a data pipe did.
fn push_flowed(
    alloc: Global,
    out: &mut Vec<u8>,
    token: TokenId,
    flowed: &Flowed,
) -> Result<(), AllocError>
    ensures { OnOk result (out.new.items ≡ out.old.items ++ flowed_text token flowed.now) }
{
    let shown = ShownToken(token);
    match flowed {
        Flowed::Put(n) => push_pair(alloc, out, "put ", shown, *n),
        Flowed::Bytes(bytes) => push_bytes(alloc, out, "got-bytes ", shown, bytes.as_slice()),
        Flowed::Space(n) => push_pair(alloc, out, "space ", shown, *n),
        Flowed::View(bytes) => push_bytes(alloc, out, "view ", shown, bytes.as_slice()),
        Flowed::Ended => push_shown(alloc, out, "ended ", shown),
    }
}

/// Adds a reply.
pub(crate) fn push_told(
    alloc: Global,
    out: &mut Vec<u8>,
    schema: &Schema,
    told: &Told,
) -> Result<(), AllocError>
    ensures { OnOk result (out.new.items ≡ out.old.items ++ told_text schema.now told.now) }
{
    match told {
        Told::Made(things) => push_shown(alloc, out, "made ", ShownThings(things.as_slice())),
        Told::Bound(x) => push_shown(alloc, out, "bound ", ShownEnd(*x)),
        Told::Associated(p) => push_shown(alloc, out, "associated ", ShownPending(*p)),
        Told::Attached(id) => push_shown(alloc, out, "attached ", *id),
        Told::Sent(request, bytes) => {
            push_bytes(alloc, out, "sent ", *request, bytes.as_slice())
        }
        Told::Wrote(x) => push_shown(alloc, out, "wrote ", ShownEnd(*x)),
        Told::Taken(got) => push_apart(alloc, out, schema, got),
        Told::Dropped(id, gone) => {
            push_pair(alloc, out, "dropped ", *id, ShownThings(gone.as_slice()))
        }
        Told::Control(noted) => push_noted(alloc, out, *noted),
        Told::Notified(Notified::Asking) => push_text(out, "asking"),
        Told::Notified(Notified::Requiring) => push_text(out, "requiring"),
        Told::Notified(Notified::Flushing(flush)) => push_shown(alloc, out, "flushing ", *flush),
        Told::Pausing => push_text(out, "pausing"),
        Told::Flowed(t, flowed) => push_flowed(alloc, out, *t, flowed),
        Told::Bad(why, gone) => {
            push_pair(
                alloc,
                out,
                "bad ",
                ShownBad(*why),
                ShownThings(gone.as_slice()),
            )
        }
        Told::Closed(gone) => push_shown(alloc, out, "closed ", ShownThings(gone.as_slice())),
        Told::Skipped => push_text(out, "skipped"),
        Told::No(why) => push_why(alloc, out, *why),
    }
}
