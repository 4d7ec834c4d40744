//! All that a sequence holds.

ghost use Rattle.std.specs.Prelude.{◌≡◌, ◌+◌, ◌≤◌, ◌++◌, ◌∷◌, false, drop, length, replicate, None, OnOk};
ghost use Rattle.std.specs.Prelude.{if◌then◌else◌, slice_get, vec_len, vec_capacity};
ghost use Rattle.script_names.specs.Held.{HaveNames};
ghost use Rattle.script_names.specs.Rooms.{HasPlaces, HasRoomBack, HasRoomBehind, HasRoomFor, SameHeld};
ghost use Rattle.script_names.specs.Settling.{LeavesLast, Settles, before_list};
ghost use Rattle.script_names.specs.Tables.{given};
ghost use Rattle.bind_model.specs.declared.commands.Reply.TheVariants as replies;
ghost use Rattle.bind_model.specs.declared.told.Why.{Why};

use crate::counts::{count_handles, count_pendings};
use crate::held::Held;
use crate::kept::{Kept, retire_all};
use crate::names::Names;
use crate::no_memory::NoMemory;
use crate::stands::Stands;
use bind_model::{Command, Pending, PendingList, Received, Reply, Responder, ToClose};
use call_script::NameId;
use handle_table::{Ended, Handle, Handles};
use std::alloc::Global;

/// The handles, the pendings and the responders of a sequence, under names and without, and what there
/// was no place for.
pub struct Rooms {
    pub stands: Stands,
    pub handles: Held<Handle>,
    pub pendings: Held<Pending>,
    pub responders: Held<Responder>,
    pub kept: Vec<Kept>,
}

impl Rooms {
    /// Nothing, and no names. Takes no memory.
    pub fn new(alloc: Global) -> Rooms
        ensures { HaveNames 0 result }
    {
        Rooms {
            stands: Stands::new(alloc),
            handles: Held::new(alloc),
            pendings: Held::new(alloc),
            responders: Held::new(alloc),
            kept: Vec::new(alloc),
        }
    }

    /// Adds so many names that stand for nothing.
    pub fn add_names(&mut self, names: usize) -> Result<(), NoMemory>
        ensures stands { OnOk result (self.new.stands.things.items ≡ self.old.stands.things.items ++ replicate names None) }
        ensures handles { OnOk result (self.new.handles.named.items ≡ self.old.handles.named.items ++ replicate names None) }
        ensures pendings { OnOk result (self.new.pendings.named.items ≡ self.old.pendings.named.items ++ replicate names None) }
        ensures responders { OnOk result (self.new.responders.named.items ≡ self.old.responders.named.items ++ replicate names None) }
    {
        self.stands.add_names(names)?;
        self.handles.add_names(names)?;
        self.pendings.add_names(names)?;
        self.responders.add_names(names)
    }

    /// Makes room for what there may be no place for of one command.
    pub fn make_place(&mut self) -> Result<(), NoMemory>
        ensures same { SameHeld self.old self.new }
        ensures others { self.new.responders ≡ self.old.responders }
        ensures room { OnOk result (HasPlaces 3 self.new) }
    {
        match self.kept.reserve(3) {
            Ok(()) => Ok(()),
            Err(_) => Err(NoMemory),
        }
    }

    /// Makes room for what may come back of a command.
    pub fn make_room(&mut self, command: &Command) -> Result<(), NoMemory>
        ensures same { SameHeld self.old self.new }
        ensures kept { self.new.kept ≡ self.old.kept }
        ensures room { OnOk result (HasRoomFor command.now self.new) }
    {
        self.handles.make_room(count_handles(command))?;
        self.pendings.make_room(count_pendings(command))?;
        self.responders.make_room(1)
    }

    /// Keeps a command that came back for want of memory.
    pub fn keep(&mut self, command: Command)
        requires { HasPlaces 1 self.old }
        ensures { SameHeld self.old self.new }
    {
        self.kept.push_reserved(Kept::Command(command));
    }

    /// Holds handles that came under names; those left over have none.
    fn hold_handles(&mut self, names: &[NameId], handles: Handles) -> Result<(), NoMemory>
        requires { HasPlaces 1 self.old }
        ensures stands { self.new.stands.things.items ≡ given names.now handles self.old.stands.things.items }
        ensures handles { OnOk result (self.new.handles.named.items ≡ given names.now handles self.old.handles.named.items) }
        ensures pendings { self.new.pendings ≡ self.old.pendings }
        ensures responders { self.new.responders ≡ self.old.responders }
        ensures kept { vec_len self.new.kept ≤ vec_len self.old.kept + 1 }
        ensures room { vec_capacity self.new.kept ≡ vec_capacity self.old.kept }
    {
        self.stands.set_all(names, handles.as_slice());
        match self.handles.give_new(names, handles.into_vec()) {
            Ok(()) => Ok(()),
            Err(handles) => {
                let handles = Handles::from_vec(handles);
                self.kept.push_reserved(Kept::Handles(handles));
                Err(NoMemory)
            }
        }
    }

    /// Holds pendings that came under names; those left over have none.
    fn hold_pendings(&mut self, names: &[NameId], pendings: PendingList) -> Result<(), NoMemory>
        requires { HasPlaces 1 self.old }
        ensures stands { self.new.stands ≡ self.old.stands }
        ensures handles { self.new.handles ≡ self.old.handles }
        ensures pendings { OnOk result (self.new.pendings.named.items ≡ given names.now pendings self.old.pendings.named.items) }
        ensures responders { self.new.responders ≡ self.old.responders }
    {
        match self.pendings.give_new(names, pendings.into_vec()) {
            Ok(()) => Ok(()),
            Err(pendings) => {
                let pendings = PendingList::from_vec(pendings);
                self.kept.push_reserved(Kept::Pendings(pendings));
                Err(NoMemory)
            }
        }
    }

    /// Holds what a take got: the names go to its handles, its pendings and its responder, in this order. A
    /// responder that is to be answered by itself has none.
    fn hold_got(&mut self, names: &Names, got: Received, is_due: bool) -> Result<(), NoMemory>
        requires kept { HasPlaces 2 self.old }
        requires room { 1 + vec_len self.old.responders.others ≤ vec_capacity self.old.responders.others }
        ensures settles { OnOk result (Settles names.now (replies.Got got) is_due self.old self.new) }
        ensures last { LeavesLast is_due (replies.Got got) self.new }
    {
        let Received {
            id: _,
            target: _,
            parameters: _,
            request: _,
            handles,
            pendings,
            responder,
            gone: _,
            moment: _,
        } = got;
        let sets = names.sets.as_slice();
        let behind = after(sets, handles.as_slice().len());
        let name = name_behind(behind, pendings.as_slice().len(), is_due);
        if let Some(responder) = responder {
            self.responders.give_one(name, responder);
        }
        let held = self.hold_handles(sets, handles);
        let also = self.hold_pendings(behind, pendings);
        held?;
        also
    }

    /// Holds the handles of a line's list again, under its names.
    pub fn give_handles(&mut self, names: &Names, handles: Handles)
        requires { length handles + vec_len self.old.handles.others ≤ vec_capacity self.old.handles.others }
        ensures handles { self.new.handles.named.items ≡ given names.now.handles.items handles self.old.handles.named.items }
        ensures kept { vec_len self.new.handles.others ≤ vec_len self.old.handles.others + length handles }
        ensures room { vec_capacity self.new.handles.others ≡ vec_capacity self.old.handles.others }
        ensures stands { self.new.stands ≡ self.old.stands }
        ensures pendings { self.new.pendings ≡ self.old.pendings }
        ensures responders { self.new.responders ≡ self.old.responders }
        ensures places { self.new.kept ≡ self.old.kept }
    {
        self.handles
            .give(names.handles.as_slice(), handles.into_vec());
    }

    /// Holds the pendings of a line's list again, under its names.
    pub fn give_pendings(&mut self, names: &Names, pendings: PendingList)
        requires { length pendings + vec_len self.old.pendings.others ≤ vec_capacity self.old.pendings.others }
        ensures pendings { self.new.pendings.named.items ≡ given names.now.pendings.items pendings self.old.pendings.named.items }
        ensures stands { self.new.stands ≡ self.old.stands }
        ensures handles { self.new.handles ≡ self.old.handles }
        ensures responders { self.new.responders ≡ self.old.responders }
        ensures places { self.new.kept ≡ self.old.kept }
    {
        self.pendings
            .give(names.pendings.as_slice(), pendings.into_vec());
    }

    /// Holds what was to be closed again.
    fn give_back_closed(&mut self, names: &Names, closed: ToClose)
        requires { HasRoomFor (Command.Close closed) self.old }
        ensures { (why : Why) → Settles names.now (replies.No why (Command.Close closed)) false self.old self.new }
    {
        match closed {
            ToClose::Handle(handle) => self.handles.give_one(names.one, handle),
            ToClose::Pending(pending) => self.pendings.give_one(names.one, pending),
            ToClose::Responder(responder) => self.responders.give_one(names.one, responder),
            ToClose::Endpoint(_, _) => {}
        }
    }

    /// Holds the end that no bytes were written from again, and the handles that were to go with them.
    fn give_back_written(&mut self, names: &Names, end: Handle, handles: Handles)
        requires { 1 + length handles + vec_len self.old.handles.others ≤ vec_capacity self.old.handles.others }
        ensures handles { self.new.handles.named.items
            ≡ given (before_list names.now.one names.now.handles.items) (end ∷ handles) self.old.handles.named.items }
        ensures stands { self.new.stands ≡ self.old.stands }
        ensures pendings { self.new.pendings ≡ self.old.pendings }
        ensures responders { self.new.responders ≡ self.old.responders }
    {
        match names.one {
            Some(name) => {
                self.give_handles(names, handles);
                self.handles.hold(name, end);
            }
            // A line that writes has a name for the end.
            None => {
                self.handles.give(&[], handles.into_vec());
                self.handles.give_one(None, end);
            }
        }
    }

    /// Holds what went with a refused command again, under the names that it was taken from.
    fn give_back(&mut self, names: &Names, command: Command)
        requires { HasRoomBack command self.old }
        ensures { (why : Why) → Settles names.now (replies.No why command) false self.old self.new }
    {
        match command {
            Command::Bind(handle, _, _) => self.handles.give_one(names.one, handle),
            Command::Flow(handle, _) => self.handles.give_one(names.one, handle),
            Command::Attach(pending, _) => self.pendings.give_one(names.one, pending),
            Command::Call(_, _, _, handles, pendings, _) => {
                self.give_handles(names, handles);
                self.give_pendings(names, pendings);
            }
            Command::Answer(responder, _, handles, pendings, _) => {
                self.responders.give_one(names.one, responder);
                self.give_handles(names, handles);
                self.give_pendings(names, pendings);
            }
            Command::Raw(handle, _, handles) => self.give_back_written(names, handle, handles),
            Command::Close(closed) => self.give_back_closed(names, closed),
            Command::Pipe
            | Command::Join(_)
            | Command::Mint(_)
            | Command::Associate(_, _, _)
            | Command::Take(_)
            | Command::Notify(_, _)
            | Command::Pause(_, _, _)
            | Command::Data(_)
            | Command::Skip(_) => {}
        }
    }

    /// Holds what comes with a reply, under the names of its line.
    pub fn settle(&mut self, names: &Names, reply: Reply, is_due: bool) -> Result<(), NoMemory>
        requires places { HasPlaces 2 self.old }
        requires room { HasRoomBehind reply self.old }
        ensures settles { OnOk result (Settles names.now reply is_due self.old self.new) }
        ensures last { LeavesLast is_due reply self.new }
    {
        match reply {
            Reply::Made(handles) => self.hold_handles(names.sets.as_slice(), handles),
            Reply::Got(got) => self.hold_got(names, got, is_due),
            Reply::Associated(pending) => {
                self.pendings.give_one(names.sets.first().copied(), pending);
                Ok(())
            }
            Reply::Wrote(handle) => {
                self.handles.give_one(names.one, handle);
                Ok(())
            }
            Reply::Flowed(handle, _) => {
                self.handles.give_one(names.one, handle);
                Ok(())
            }
            Reply::No(_, command) => {
                self.give_back(names, command);
                Ok(())
            }
            Reply::Bound(_)
            | Reply::Attached(_)
            | Reply::Sent(_, _)
            | Reply::Dropped(_, _)
            | Reply::Control(_)
            | Reply::Bad(_, _)
            | Reply::Closed(_)
            | Reply::Notified(_)
            | Reply::Pausing
            | Reply::Skipped => Ok(()),
        }
    }

    /// Lets all go, once all is over.
    pub fn retire(self, over: &Ended) {
        let Rooms {
            stands: _,
            handles,
            pendings,
            responders,
            kept,
        } = self;
        handles.retire(over);
        pendings.retire(over);
        responders.retire(over);
        retire_all(kept, over);
    }
}

/// The names behind so many.
fn after(names: &[NameId], count: usize) -> &[NameId]
    ensures { result.now ≡ drop count names.now }
{
    match names.get(count..) {
        Some(rest) => rest,
        None => &[],
    }
}

/// The name behind so many, for a responder; one that is to be answered by itself has none.
fn name_behind(names: &[NameId], count: usize, is_due: bool) -> Option<NameId>
    ensures { result ≡ (if is_due then None else slice_get names.now count) }
{
    if is_due {
        None
    } else {
        names.get(count).copied()
    }
}
