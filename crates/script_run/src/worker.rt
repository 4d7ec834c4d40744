//! A sequence at its desk: its lines, each with its automatic reply.

ghost use Rattle.std.specs.Prelude.{◌≡◌, ◌<◌, ℕ, [], IfErr, IfOk, IsOkUnless, OnErr, OnOk, Some, is_some, length};
ghost use Rattle.std.specs.List.{AllByRecursion};
ghost use Rattle.std.specs.Option.{option_copied};
ghost use Rattle.bind_model.specs.Plain.{asked_of, told_of, responders_in, IsOf};
ghost use Rattle.bind_model.specs.declared.asked.Asked.TheVariants as asks;
ghost use Rattle.bind_model.specs.declared.endpoint.ResponderId.{ResponderId as responder_id};
ghost use Rattle.call_script.specs.Sound.{IsLine, IsReply};
ghost use Rattle.remote_receiver.specs.Held.{kept_of};
ghost use Rattle.script_names.specs.Autos.{due_for};
ghost use Rattle.script_run.specs.OfScript.{replied};
ghost use Rattle.script_names.specs.Asking.{asked_by};
ghost use Rattle.script_run.specs.AtDesk.{Adds, IsLater, SawAt, seen_by};
ghost use Rattle.script_run.specs.steps.Desks.{AtMost, CameTo, CutIn, DidCommand, DidLine, DidTake, IfSpent, IsFull, Replied, TookAt, Went, reply_of};
ghost use Rattle.script_names.specs.Held.{HaveNames, names_in};
ghost use Rattle.script_names.specs.Rooms.{HasPlaces, HasRoomBehind, SameHeld};
ghost use Rattle.script_names.specs.Settling.{EndsWith, LeavesLast, Settles};

use crate::autos::due_after;
use crate::commands::serve;
use crate::cut::Cut;
use crate::plain::Plain;
use bind_model::{Command, PendingList, Refused, Reply, Stepper};
use call_script::{AutoReply, Line};
use handle_table::Handles;
use mj_base::EndId;
use mj_schema::Schema;
use remote_receiver::Desk;
use script_names::{Names, Rooms, command_of, copy_prepared};
use std::alloc::Global;

/// Does a command at a desk, with room for what comes back. One that comes back without an event is kept.
pub fn ask<P: Stepper>(
    desk: &mut Desk<Plain, P>,
    rooms: &mut Rooms,
    alloc: Global,
    schema: &Schema,
    command: Command,
) -> Result<Reply, Cut>
    requires seq { (P.me desk.old.stepper).0 < P.seqs desk.old.stepper }
    requires schema { P.schema desk.old.stepper ≡ schema.now }
    requires prepared { IsOf (P.schema desk.old.stepper) command }
    requires places { HasPlaces 3 rooms.old }
    ensures home { P.home desk.new.stepper ≡ P.home desk.old.stepper }
    ensures later { IsLater (seen_by P.schema P.seqs P.alone P.me P.seen desk.old.stepper)
        (seen_by P.schema P.seqs P.alone P.me P.seen desk.new.stepper) }
    ensures still { OnErr result (Adds (seen_by P.schema P.seqs P.alone P.me P.seen desk.old.stepper)
        (seen_by P.schema P.seqs P.alone P.me P.seen desk.new.stepper) []) }
    ensures held { SameHeld rooms.old rooms.new }
    ensures saw { IfOk result (SawAt (seen_by P.schema P.seqs P.alone P.me P.seen desk.old.stepper)
        (seen_by P.schema P.seqs P.alone P.me P.seen desk.new.stepper) command) }
    ensures went { IfOk result (λ reply. Went (seen_by P.schema P.seqs P.alone P.me P.seen desk.old.stepper)
        (seen_by P.schema P.seqs P.alone P.me P.seen desk.new.stepper)
        (kept_of desk.old.jobs) (kept_of desk.new.jobs) (asked_of command) (told_of reply)) }
    ensures places { OnOk result (HasPlaces 2 rooms.new) }
    ensures room { IfOk result (λ reply. HasRoomBehind reply rooms.new) }
    ensures cut { IfErr result (λ cut. IfSpent cut (IsFull (seen_by P.schema P.seqs P.alone P.me P.seen desk.old.stepper)
        (seen_by P.schema P.seqs P.alone P.me P.seen desk.new.stepper))) }
{
    if rooms.make_room(&command).is_err() {
        rooms.keep(command);
        return Err(Cut::Memory);
    }
    match serve(desk, alloc, schema, command) {
        Ok(reply) => Ok(reply),
        Err(Refused::Memory(command)) => {
            rooms.keep(command);
            Err(Cut::Memory)
        }
        Err(Refused::Spent(command)) => {
            rooms.keep(command);
            Err(Cut::Spent)
        }
    }
}

/// Holds what comes with a reply, under the names of its line: the automatic reply that is due then.
fn settle<'s, P: Stepper>(
    desk: &Desk<Plain, P>,
    rooms: &mut Rooms,
    autos: &'s [AutoReply],
    names: &Names,
    reply: Reply,
) -> Result<Option<&'s AutoReply>, Cut>
    requires places { HasPlaces 2 rooms.old }
    requires room { HasRoomBehind reply rooms.old }
    ensures found { IfOk result (λ found. option_copied found
        ≡ reply_of (due_for autos.now (P.me desk.now.stepper) (responders_in reply))) }
    ensures settles { IfOk result (λ found. Settles names.now reply (is_some found) rooms.old rooms.new) }
    ensures last { IfOk result (λ found. LeavesLast (is_some found) reply rooms.new) }
    ensures cut { IsOkUnless result Cut.Memory }
{
    let found = due_after(autos, desk.stepper().seq(), &reply);
    match rooms.settle(names, reply, found.is_some()) {
        Ok(()) => Ok(found),
        Err(_) => Err(Cut::Memory),
    }
}

/// Answers with the last responder without a name, where a reply is due.
pub fn answer<P: Stepper>(
    desk: &mut Desk<Plain, P>,
    rooms: &mut Rooms,
    alloc: Global,
    schema: &Schema,
    reply: &AutoReply,
) -> Result<(), Cut>
    requires seq { (P.me desk.old.stepper).0 < P.seqs desk.old.stepper }
    requires schema { P.schema desk.old.stepper ≡ schema.now }
    requires reply { IsReply (P.schema desk.old.stepper) (P.seqs desk.old.stepper) reply.now }
    requires last { (r : responder_id) × EndsWith r rooms.old.responders.others.items }
    ensures home { P.home desk.new.stepper ≡ P.home desk.old.stepper }
    ensures later { IsLater (seen_by P.schema P.seqs P.alone P.me P.seen desk.old.stepper)
        (seen_by P.schema P.seqs P.alone P.me P.seen desk.new.stepper) }
    ensures came { OnErr result ((r : responder_id) → EndsWith r rooms.old.responders.others.items
        → AtMost (replied (r, reply.now)) (seen_by P.schema P.seqs P.alone P.me P.seen desk.old.stepper)
        (seen_by P.schema P.seqs P.alone P.me P.seen desk.new.stepper)) }
    ensures names { OnOk result (names_in rooms.new ≡ names_in rooms.old) }
    ensures went { OnOk result ((r : responder_id) → EndsWith r rooms.old.responders.others.items
        → Replied (Some (r, reply.now)) (seen_by P.schema P.seqs P.alone P.me P.seen desk.old.stepper)
        (seen_by P.schema P.seqs P.alone P.me P.seen desk.new.stepper) (kept_of desk.old.jobs) (kept_of desk.new.jobs)) }
    ensures have { OnOk result ((count : ℕ) → HaveNames count rooms.old → HaveNames count rooms.new) }
    ensures cut { IfErr result (λ cut. IfSpent cut (IsFull (seen_by P.schema P.seqs P.alone P.me P.seen desk.old.stepper)
        (seen_by P.schema P.seqs P.alone P.me P.seen desk.new.stepper))) }
{
    let names = Names::none(alloc);
    if rooms.make_place().is_err() {
        return Err(Cut::Memory);
    }
    let Ok(prepared) = copy_prepared(alloc, &reply.prepared) else {
        return Err(Cut::Memory);
    };
    let Some(responder) = rooms.responders.others.pop() else {
        unreachable!()
    };
    let handles = Handles::from_vec(Vec::new(alloc));
    let pendings = PendingList::new(alloc);
    let command = Command::Answer(responder, prepared, handles, pendings, None);
    let told = ask(desk, rooms, alloc, schema, command)?;
    match rooms.settle(&names, told, false) {
        Ok(()) => Ok(()),
        Err(_) => Err(Cut::Memory),
    }
}

/// Does what a line asks: the automatic reply that is due then.
pub fn do_command<'s, P: Stepper>(
    desk: &mut Desk<Plain, P>,
    rooms: &mut Rooms,
    alloc: Global,
    schema: &Schema,
    autos: &'s [AutoReply],
    line: &Line,
) -> Result<Option<&'s AutoReply>, Cut>
    requires seq { (P.me desk.old.stepper).0 < P.seqs desk.old.stepper }
    requires schema { P.schema desk.old.stepper ≡ schema.now }
    requires line { IsLine (P.schema desk.old.stepper) (P.seqs desk.old.stepper) (length rooms.old.stands.things.items) line.now }
    requires names { HaveNames (length rooms.old.stands.things.items) rooms.old }
    ensures home { P.home desk.new.stepper ≡ P.home desk.old.stepper }
    ensures later { IsLater (seen_by P.schema P.seqs P.alone P.me P.seen desk.old.stepper)
        (seen_by P.schema P.seqs P.alone P.me P.seen desk.new.stepper) }
    ensures came { OnErr result (AtMost (asked_by (names_in rooms.old) line.now) (seen_by P.schema P.seqs P.alone P.me P.seen desk.old.stepper)
        (seen_by P.schema P.seqs P.alone P.me P.seen desk.new.stepper)) }
    ensures did { IfOk result (λ found. DidCommand autos.now line.now (option_copied found)
        (seen_by P.schema P.seqs P.alone P.me P.seen desk.old.stepper)
        (seen_by P.schema P.seqs P.alone P.me P.seen desk.new.stepper)
        (kept_of desk.old.jobs) (kept_of desk.new.jobs) (names_in rooms.old) (names_in rooms.new) rooms.new.responders.others.items) }
    ensures names { OnOk result (HaveNames (length rooms.old.stands.things.items) rooms.new) }
    ensures cut { IfErr result (λ cut. IfSpent cut (IsFull (seen_by P.schema P.seqs P.alone P.me P.seen desk.old.stepper)
        (seen_by P.schema P.seqs P.alone P.me P.seen desk.new.stepper))) }
{
    let Ok(names) = Names::of(alloc, &rooms.stands, &line.command) else {
        return Err(Cut::Memory);
    };
    if rooms.make_place().is_err() {
        return Err(Cut::Memory);
    }
    let Ok(command) = command_of(rooms, alloc, &names, line) else {
        return Err(Cut::Memory);
    };
    let reply = ask(desk, rooms, alloc, schema, command)?;
    settle(desk, rooms, autos, &names, reply)
}

/// Takes at an end, and holds what comes without names: the automatic reply that is due then.
fn do_take<'s, P: Stepper>(
    desk: &mut Desk<Plain, P>,
    rooms: &mut Rooms,
    alloc: Global,
    schema: &Schema,
    autos: &'s [AutoReply],
    end: EndId,
) -> Result<Option<&'s AutoReply>, Cut>
    requires seq { (P.me desk.old.stepper).0 < P.seqs desk.old.stepper }
    requires schema { P.schema desk.old.stepper ≡ schema.now }
    ensures home { P.home desk.new.stepper ≡ P.home desk.old.stepper }
    ensures later { IsLater (seen_by P.schema P.seqs P.alone P.me P.seen desk.old.stepper)
        (seen_by P.schema P.seqs P.alone P.me P.seen desk.new.stepper) }
    ensures came { OnErr result (AtMost (asks.Take end) (seen_by P.schema P.seqs P.alone P.me P.seen desk.old.stepper)
        (seen_by P.schema P.seqs P.alone P.me P.seen desk.new.stepper)) }
    ensures did { IfOk result (λ found. DidTake autos.now end (option_copied found) (seen_by P.schema P.seqs P.alone P.me P.seen desk.old.stepper)
        (seen_by P.schema P.seqs P.alone P.me P.seen desk.new.stepper)
        (kept_of desk.old.jobs) (kept_of desk.new.jobs) rooms.new.responders.others.items) }
    ensures cut { IfErr result (λ cut. IfSpent cut (IsFull (seen_by P.schema P.seqs P.alone P.me P.seen desk.old.stepper)
        (seen_by P.schema P.seqs P.alone P.me P.seen desk.new.stepper))) }
{
    let names = Names::none(alloc);
    if rooms.make_place().is_err() {
        return Err(Cut::Memory);
    }
    let reply = ask(desk, rooms, alloc, schema, Command::Take(end))?;
    settle(desk, rooms, autos, &names, reply)
}

/// Does a line of the sequence, and the automatic reply that is due then.
pub fn do_line<P: Stepper>(
    desk: &mut Desk<Plain, P>,
    rooms: &mut Rooms,
    alloc: Global,
    schema: &Schema,
    autos: &[AutoReply],
    line: &Line,
) -> Result<(), Cut>
    requires seq { (P.me desk.old.stepper).0 < P.seqs desk.old.stepper }
    requires schema { P.schema desk.old.stepper ≡ schema.now }
    requires line { IsLine (P.schema desk.old.stepper) (P.seqs desk.old.stepper) (length rooms.old.stands.things.items) line.now }
    requires autos { AllByRecursion (IsReply (P.schema desk.old.stepper) (P.seqs desk.old.stepper)) autos.now }
    requires names { HaveNames (length rooms.old.stands.things.items) rooms.old }
    ensures home { P.home desk.new.stepper ≡ P.home desk.old.stepper }
    ensures later { IsLater (seen_by P.schema P.seqs P.alone P.me P.seen desk.old.stepper)
        (seen_by P.schema P.seqs P.alone P.me P.seen desk.new.stepper) }
    ensures came { OnErr result (CameTo autos.now (asked_by (names_in rooms.old) line.now)
        (seen_by P.schema P.seqs P.alone P.me P.seen desk.old.stepper) (seen_by P.schema P.seqs P.alone P.me P.seen desk.new.stepper)) }
    ensures did { OnOk result (DidLine autos.now line.now (seen_by P.schema P.seqs P.alone P.me P.seen desk.old.stepper)
        (seen_by P.schema P.seqs P.alone P.me P.seen desk.new.stepper)
        (kept_of desk.old.jobs) (kept_of desk.new.jobs) (names_in rooms.old) (names_in rooms.new)) }
    ensures names { OnOk result (HaveNames (length rooms.old.stands.things.items) rooms.new) }
    ensures cut { IfErr result (λ cut. IfSpent cut (CutIn autos.now (asked_by (names_in rooms.old) line.now)
        (seen_by P.schema P.seqs P.alone P.me P.seen desk.old.stepper) (seen_by P.schema P.seqs P.alone P.me P.seen desk.new.stepper)
        (kept_of desk.old.jobs))) }
{
    match do_command(desk, rooms, alloc, schema, autos, line)? {
        Some(reply) => answer(desk, rooms, alloc, schema, reply),
        None => Ok(()),
    }
}

/// Takes at an end, and does the automatic reply that is due then.
pub fn take<P: Stepper>(
    desk: &mut Desk<Plain, P>,
    rooms: &mut Rooms,
    alloc: Global,
    schema: &Schema,
    autos: &[AutoReply],
    end: EndId,
) -> Result<(), Cut>
    requires seq { (P.me desk.old.stepper).0 < P.seqs desk.old.stepper }
    requires schema { P.schema desk.old.stepper ≡ schema.now }
    requires autos { AllByRecursion (IsReply (P.schema desk.old.stepper) (P.seqs desk.old.stepper)) autos.now }
    ensures home { P.home desk.new.stepper ≡ P.home desk.old.stepper }
    ensures later { IsLater (seen_by P.schema P.seqs P.alone P.me P.seen desk.old.stepper)
        (seen_by P.schema P.seqs P.alone P.me P.seen desk.new.stepper) }
    ensures came { OnErr result (CameTo autos.now (asks.Take end)
        (seen_by P.schema P.seqs P.alone P.me P.seen desk.old.stepper) (seen_by P.schema P.seqs P.alone P.me P.seen desk.new.stepper)) }
    ensures took { OnOk result (TookAt autos.now end (seen_by P.schema P.seqs P.alone P.me P.seen desk.old.stepper)
        (seen_by P.schema P.seqs P.alone P.me P.seen desk.new.stepper) (kept_of desk.old.jobs) (kept_of desk.new.jobs)) }
    ensures cut { IfErr result (λ cut. IfSpent cut (CutIn autos.now (asks.Take end)
        (seen_by P.schema P.seqs P.alone P.me P.seen desk.old.stepper) (seen_by P.schema P.seqs P.alone P.me P.seen desk.new.stepper)
        (kept_of desk.old.jobs))) }
{
    match do_take(desk, rooms, alloc, schema, autos, end)? {
        Some(reply) => answer(desk, rooms, alloc, schema, reply),
        None => Ok(()),
    }
}
