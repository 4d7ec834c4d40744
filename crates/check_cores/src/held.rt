//! What came out of a core, and isn't given back to it yet.

use bind_model::{Command, Pending, PendingId, PendingList, Received, Reply, Responder, ToClose};
use handle_table::{Ended, Handle, Handles, Thing};
use mj_base::EndId;
use std::alloc::{AllocFailed, Global};

/// What is held, each in the order in which it came.
pub struct Held<'a> {
    handles: Vec<Handle>,
    pendings: Vec<Pending>,
    responders: Vec<Responder>,
    /// By the end of another core what there is no memory to hold is let go; nothing is compared then.
    spare: &'a Ended,
    pub is_short: bool,
}

impl<'a> Held<'a> {
    /// Nothing is held.
    pub fn new(alloc: Global, spare: &'a Ended) -> Held<'a> {
        Held {
            handles: Vec::new(alloc),
            pendings: Vec::new(alloc),
            responders: Vec::new(alloc),
            spare,
            is_short: false,
        }
    }

    /// Holds a handle.
    pub fn put_handle(&mut self, handle: Handle) {
        if let Err(AllocFailed { value }) = self.handles.push(handle) {
            value.retire(self.spare);
            self.is_short = true;
        }
    }

    /// Holds a pending.
    fn put_pending(&mut self, pending: Pending) {
        if let Err(AllocFailed { value }) = self.pendings.push(pending) {
            value.retire(self.spare);
            self.is_short = true;
        }
    }

    /// Holds a responder.
    pub fn put_responder(&mut self, responder: Responder) {
        if let Err(AllocFailed { value }) = self.responders.push(responder) {
            value.retire(self.spare);
            self.is_short = true;
        }
    }

    /// Holds handles, in order.
    pub fn put_handles(&mut self, handles: Handles) {
        let mut rest = handles.into_vec();
        rest.reverse();
        while let Some(handle) = rest.pop() {
            self.put_handle(handle);
        }
        rest.destroy_empty();
    }

    /// Holds pendings, in order.
    pub fn put_pendings(&mut self, pendings: PendingList) {
        let mut rest = pendings.into_vec();
        rest.reverse();
        while let Some(pending) = rest.pop() {
            self.put_pending(pending);
        }
        rest.destroy_empty();
    }

    /// Holds what a take got.
    fn put_received(&mut self, received: Received) {
        let Received {
            id: _,
            target: _,
            parameters: _,
            request: _,
            handles,
            pendings,
            responder,
            gone: _,
            moment: _,
        } = received;
        self.put_handles(handles);
        self.put_pendings(pendings);
        if let Some(responder) = responder {
            self.put_responder(responder);
        }
    }

    /// Holds again what a closing took.
    fn put_unclosed(&mut self, unclosed: ToClose) {
        match unclosed {
            ToClose::Handle(handle) => self.put_handle(handle),
            ToClose::Pending(pending) => self.put_pending(pending),
            ToClose::Responder(responder) => self.put_responder(responder),
            ToClose::Endpoint(_, _) => {}
        }
    }

    /// Holds again what a command took.
    pub fn put_back(&mut self, command: Command) {
        match command {
            Command::Bind(handle, _, _) => self.put_handle(handle),
            Command::Attach(pending, _) => self.put_pending(pending),
            Command::Call(_, _, _, handles, pendings, _) => {
                self.put_handles(handles);
                self.put_pendings(pendings);
            }
            Command::Answer(responder, _, handles, pendings, _) => {
                self.put_responder(responder);
                self.put_handles(handles);
                self.put_pendings(pendings);
            }
            Command::Raw(handle, _, handles) => {
                self.put_handle(handle);
                self.put_handles(handles);
            }
            Command::Close(unclosed) => self.put_unclosed(unclosed),
            Command::Flow(handle, _) => self.put_handle(handle),
            Command::Pipe
            | Command::Join(_)
            | Command::Mint(_)
            | Command::Associate(_, _, _)
            | Command::Take(_)
            | Command::Notify(_, _)
            | Command::Pause(_, _, _)
            | Command::Data(_)
            | Command::Skip(_) => {}
        }
    }

    /// Holds what comes with a reply.
    pub fn put(&mut self, reply: Reply) {
        match reply {
            Reply::Made(handles) => self.put_handles(handles),
            Reply::Wrote(handle) => self.put_handle(handle),
            Reply::Flowed(handle, _) => self.put_handle(handle),
            Reply::Associated(pending) => self.put_pending(pending),
            Reply::Got(received) => self.put_received(received),
            Reply::No(_, command) => self.put_back(command),
            Reply::Bound(_)
            | Reply::Attached(_)
            | Reply::Sent(_, _)
            | Reply::Dropped(_, _)
            | Reply::Control(_)
            | Reply::Bad(_, _)
            | Reply::Closed(_)
            | Reply::Notified(_)
            | Reply::Pausing
            | Reply::Skipped => {}
        }
    }

    /// Takes the handle of a thing.
    pub fn take_handle(&mut self, thing: Thing) -> Option<Handle> {
        let place = self
            .handles
            .iter()
            .position(|handle| handle.thing() == thing)?;
        Some(self.handles.remove(place))
    }

    /// Takes the pending of a name.
    pub fn take_pending(&mut self, name: PendingId) -> Option<Pending> {
        let place = self
            .pendings
            .iter()
            .position(|pending| pending.id() == name)?;
        Some(self.pendings.remove(place))
    }

    /// Takes the responder of a request to the endpoint of an id at an end.
    pub fn take_responder(&mut self, end: EndId, id: u32, request: u64) -> Option<Responder> {
        let place = self.responders.iter().position(|responder| {
            let name = responder.id();
            name.end == end && name.id == id && name.request == request
        })?;
        Some(self.responders.remove(place))
    }

    /// Takes the handles of things, in order; fewer where some aren't held.
    pub fn take_handles(&mut self, alloc: Global, things: &[Thing]) -> Handles {
        let mut taken = Vec::new(alloc);
        for thing in things {
            if let Some(handle) = self.take_handle(*thing) {
                if let Err(AllocFailed { value }) = taken.push(handle) {
                    self.put_handle(value);
                }
            }
        }
        Handles::from_vec(taken)
    }

    /// Takes the pendings of names, in order; fewer where some aren't held.
    pub fn take_pendings(&mut self, alloc: Global, names: &[PendingId]) -> PendingList {
        let mut taken = Vec::new(alloc);
        for name in names {
            if let Some(pending) = self.take_pending(*name) {
                if let Err(AllocFailed { value }) = taken.push(pending) {
                    self.put_pending(value);
                }
            }
        }
        PendingList::from_vec(taken)
    }

    /// Lets all go, once all is over.
    pub fn retire(self, over: &Ended) {
        let Held {
            handles,
            pendings,
            mut responders,
            spare: _,
            is_short: _,
        } = self;
        Handles::from_vec(handles).retire(over);
        PendingList::from_vec(pendings).retire(over);
        while let Some(responder) = responders.pop() {
            responder.retire(over);
        }
        responders.destroy_empty();
    }
}
