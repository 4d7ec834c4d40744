//! Endpoints and messages, as the events before give them, the oldest first.

use crate::entering::{Entry, entries};
use crate::kinds::{Named, endpoints_named};
use crate::notices::next_flush;
use crate::past::{consumed, is_gone, peer};
use crate::pendings::is_local;
use bind_model::{
    Asked, Closing, Endpoint, EndpointName, Event, Got, Noted, Notice, PendingId, State, Told,
};
use control_bytes::Control;
use handle_table::Thing;
use mj_base::{EndId, SeqId};
use mj_schema::Schema;
use std::alloc::{AllocError, Global};
use wire_encoder::EndpointSide;

/// What a message says: bytes that were written, a control that the machine emitted, or one that an end wrote.
#[derive(Clone, Copy)]
pub enum Text<'a> {
    Bytes(&'a [u8]),
    Control(Control),
    Written(Control),
}

/// A message, and the end that it is for.
#[derive(Clone, Copy)]
pub struct Letter<'a> {
    to: EndId,
    pub text: Text<'a>,
    pub handles: &'a [Thing],
}

/// What became of an endpoint.
#[derive(Clone, Copy)]
struct Change {
    name: EndpointName,
    endpoint: Endpoint,
}

/// The endpoints and the messages behind some events: what became of the one, and all that was written of the
/// other.
#[derive(Drop)]
pub struct Mail<'a> {
    pub past: &'a [Event],
    letters: Vec<Letter<'a>>,
    changes: Vec<Change>,
}

impl<'a> Mail<'a> {
    /// What there is behind these events.
    pub fn new(alloc: Global, schema: &Schema, past: &'a [Event]) -> Result<Mail<'a>, AllocError> {
        let mut mail = Mail {
            past: &[],
            letters: Vec::new(alloc),
            changes: Vec::new(alloc),
        };
        for (k, event) in past.iter().enumerate() {
            mail.past = &past[..k];
            mail.add(alloc, schema, event)?;
        }
        mail.past = past;
        Ok(mail)
    }

    /// The endpoint of an id at an end: what became of it last.
    pub fn endpoint(&self, end: EndId, id: u32) -> Option<Endpoint> {
        let name = EndpointName::new(end, id);
        let change = self
            .changes
            .iter()
            .rev()
            .find(|change| change.name == name)?;
        Some(change.endpoint)
    }

    /// The unread messages at an end, the oldest first: what was written without what was consumed, and
    /// nothing once the end is gone.
    pub fn unread(&self, alloc: Global, end: EndId) -> Result<Vec<Letter<'a>>, AllocError> {
        let mut left = Vec::new(alloc);
        if is_gone(self.past, Thing::End(end)) {
            return Ok(left);
        }
        let mut rest = consumed(self.past, end);
        for letter in &self.letters {
            if letter.to != end {
                continue;
            }
            if rest == 0 {
                left.push(*letter)?;
            }
            rest = rest.saturating_sub(1);
        }
        Ok(left)
    }

    /// The oldest unread message at an end.
    pub fn oldest(&self, alloc: Global, end: EndId) -> Result<Option<Letter<'a>>, AllocError> {
        let unread = self.unread(alloc, end)?;
        Ok(unread.first().copied())
    }

    /// Adds what an event does.
    fn add(&mut self, alloc: Global, schema: &Schema, event: &'a Event) -> Result<(), AllocError> {
        match (&event.told, &event.asked) {
            (Told::Sent(_, bytes), Asked::Call(end, _, outgoing)) => {
                self.write(*end, bytes.as_slice(), outgoing.get().handles.as_slice())
            }
            (Told::Sent(_, bytes), Asked::Answer(responder, outgoing)) => {
                let handles = outgoing.get().handles.as_slice();
                self.write(responder.end, bytes.as_slice(), handles)
            }
            (Told::Wrote(end), Asked::Raw(_, bytes, handles)) => {
                self.write(*end, bytes.as_slice(), handles.as_slice())
            }
            (Told::Taken(got), Asked::Take(end)) => {
                let named = named_in(alloc, schema, got.get())?;
                self.enter(alloc, *end, &named)
            }
            (Told::Dropped(_, _), Asked::Take(end)) => self.enter(alloc, *end, &[]),
            (Told::Closed(_), Asked::Close(Closing::Endpoint(end, id))) => {
                self.close(*end, *id, *id != 0)
            }
            (Told::Closed(_), Asked::Close(Closing::Pending(half))) => self.close_half(*half),
            _ => self.bind(event),
        }
    }

    /// Adds that an event bound an endpoint, learned that its peer is closed, was asked for a version, or wrote a
    /// control.
    fn bind(&mut self, event: &Event) -> Result<(), AllocError> {
        match (&event.told, &event.asked) {
            (Told::Bound(end), Asked::Bind(_, side, interface)) => {
                self.set(*end, 0, bound(event.seq, *side, *interface))
            }
            (Told::Associated(half), Asked::Associate(_, side, interface)) => {
                self.set(half.end, half.id, bound(event.seq, *side, *interface))
            }
            (Told::Attached(_), Asked::Attach(half, on)) => {
                self.set_state(half.end, half.id, State::Bound(*on))
            }
            (Told::Control(Noted::Closed(id)), Asked::Take(end)) => {
                self.set_peer_closed(*end, *id)
            }
            (Told::Control(Noted::Queried(id, Some(version))), Asked::Take(end)) => {
                self.tell(*end, *id, Control::Version(*id, *version))
            }
            (Told::Notified(_), Asked::Notify(end, notice)) => self.notify(*end, *notice),
            _ => Ok(()),
        }
    }

    /// Adds a message that was written at an end.
    fn write(
        &mut self,
        end: EndId,
        bytes: &'a [u8],
        handles: &'a [Thing],
    ) -> Result<(), AllocError> {
        Ok(
            self.letters.push(Letter {
                to: peer(self.past, end),
                text: Text::Bytes(bytes),
                handles,
            })?,
        )
    }

    /// Adds a control that was written at an end.
    fn notify(&mut self, end: EndId, notice: Notice) -> Result<(), AllocError> {
        let control = match notice {
            Notice::Query(id) => Control::Query(id),
            Notice::Require(id, version) => Control::Require(id, version),
            Notice::Flush => Control::Flush(next_flush(self.past, end)),
        };
        Ok(
            self.letters.push(Letter {
                to: peer(self.past, end),
                text: Text::Written(control),
                handles: &[],
            })?,
        )
    }

    /// Tells the peer of an endpoint this, unless its end is gone or the peer endpoint is known to be closed.
    fn tell(&mut self, end: EndId, id: u32, control: Control) -> Result<(), AllocError> {
        let to = peer(self.past, end);
        let is_known = self
            .endpoint(end, id)
            .is_some_and(|endpoint| endpoint.peer_closed);
        if is_gone(self.past, Thing::End(to)) || is_known {
            return Ok(());
        }
        Ok(
            self.letters.push(Letter {
                to,
                text: Text::Control(control),
                handles: &[],
            })?,
        )
    }

    /// Says what became of an endpoint.
    fn set(&mut self, end: EndId, id: u32, endpoint: Endpoint) -> Result<(), AllocError> {
        let name = EndpointName::new(end, id);
        Ok(self.changes.push(Change { name, endpoint })?)
    }

    /// Says where an endpoint is.
    fn set_state(&mut self, end: EndId, id: u32, state: State) -> Result<(), AllocError> {
        match self.endpoint(end, id) {
            Some(before) => self.set(end, id, Endpoint { state, ..before }),
            None => Ok(()),
        }
    }

    /// Says that an endpoint knows that its peer is closed.
    fn set_peer_closed(&mut self, end: EndId, id: u32) -> Result<(), AllocError> {
        match self.endpoint(end, id) {
            Some(before) => {
                let endpoint = Endpoint {
                    peer_closed: true,
                    ..before
                };
                self.set(end, id, endpoint)
            }
            None => Ok(()),
        }
    }

    /// Closes an endpoint, and tells its peer where that is to be told.
    fn close(&mut self, end: EndId, id: u32, is_told: bool) -> Result<(), AllocError> {
        if is_told {
            self.tell(end, id, Control::Closed(id))?;
        }
        self.set_state(end, id, State::Closed)
    }

    /// Closes a pending endpoint: one that came is closed, and its peer told by an end that isn't gone; one
    /// that was made here is none that its half here could still have for a peer.
    fn close_half(&mut self, half: PendingId) -> Result<(), AllocError> {
        if is_local(self.past, half) {
            return self.set_peer_closed(half.end, half.id);
        }
        let is_told = !is_gone(self.past, Thing::End(half.end));
        self.close(half.end, half.id, is_told)
    }

    /// Enters the ids of the message that a take consumed. Of those that enter closed the peer is told.
    fn enter(&mut self, alloc: Global, end: EndId, named: &[Named]) -> Result<(), AllocError> {
        for entry in &entries(alloc, self, end, named)? {
            let Entry { id, endpoint } = *entry;
            self.set(end, id, endpoint)?;
            if endpoint.state == State::Closed {
                self.tell(end, id, Control::Closed(id))?;
            }
        }
        Ok(())
    }
}

/// An endpoint that is bound on a sequence.
fn bound(seq: SeqId, side: EndpointSide, interface: u32) -> Endpoint {
    Endpoint {
        side,
        interface,
        state: State::Bound(seq),
        peer_closed: false,
    }
}

/// The endpoints that got parameters name.
fn named_in(alloc: Global, schema: &Schema, got: &Got) -> Result<Vec<Named>, AllocError> {
    let parameters = got.parameters.value(alloc)?;
    endpoints_named(alloc, schema, got.target, &parameters)
}
