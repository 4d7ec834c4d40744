//! Ends whose messages stand in one slab: many at once, and beside the plain form.

ghost use Rattle.std.specs.Prelude.{◌≡◌, ◌+◌, ◌<◌, ◌≤◌};

use handle_table::{Place, Thing};
use message_pipe::{Message, Pipes, PushRefused, SlabEnds, Steps};
use mj_base::limits::MAX_UNREAD_MESSAGES;
use mj_base::{EndId, Items, SeqId};
use pipe_runs::{Ends, QueueCommand, QueueReply, run_queues};
use std::alloc::Global;
use std::marker::Brand;
use std::process::Abort;
use std::sync::ledger::{Blank, Ledger};
use std::test::Fail;

/// The sequence that makes all pipes.
const ONLY: SeqId = SeqId(0);

/// How many pipes are made.
const PIPES: u32 = 8;

/// How many ends they have.
const ENDS: u32 = 16;

/// The first end of the pipe that both forms have.
const FIRST: EndId = EndId { seq: 0, serial: 0 };

/// Its second end.
const SECOND: EndId = EndId { seq: 0, serial: 1 };

/// How many commands a list has.
const LENGTH: u32 = 4;

/// How many commands are tried at each place of a list.
const COMMANDS: u32 = 8;

/// A pipe of the only sequence, both ends of which the table has.
fn make<R: Abort>(rt: &R, alloc: Global, pipes: &mut Pipes)
    requires { pipes.old.made ≤ 100 }
    ensures { pipes.new.made ≡ pipes.old.made + 2 }
{
    match pipes.make(alloc, ONLY, ONLY) {
        Ok((one, other)) => {
            pipes.put(one, Place::Bound);
            pipes.put(other, Place::Bound);
        }
        Err(_error) => panic!(rt; "no memory"),
    }
}

/// The message of this number at this end.
fn message(alloc: Global, end: u32, number: usize) -> Result<Message, Fail> {
    let bytes = [
        (end % 256) as u8,
        (number % 256) as u8,
        (number / 256 % 256) as u8,
    ];
    Ok(Message {
        bytes: Items::from_vec(Vec::from_slice(alloc, &bytes)?),
        handles: Items::from_vec(Vec::new(alloc)),
        emitted: false,
    })
}

/// Writes a message at an end that is there.
fn write<R: Abort>(rt: &R, pipes: &mut Pipes, end: EndId, message: Message) {
    let Some(_peer) = pipes.peer(end) else {
        panic!(rt; "no end");
    };
    match pipes.push(end, message) {
        Ok(()) => {}
        Err(PushRefused::Full(_message) | PushRefused::Memory(_message)) => panic!(rt;
            "not written"
        ),
    }
}

/// Takes the oldest message at an end that is there, and counts the look-ups.
fn read<L: Ledger, R: Abort>(
    rt: &R,
    pipes: &mut Pipes,
    end: EndId,
    steps: &mut Steps<L>,
) -> Message {
    let Some(_peer) = pipes.peer(end) else {
        panic!(rt; "no end");
    };
    match pipes.pop_front_counted(end, steps) {
        Some(message) => message,
        None => panic!(rt; "nothing unread"),
    }
}

/// Writes the message of this number at each end.
fn write_each<R: Abort>(
    rt: &R,
    alloc: Global,
    pipes: &mut Pipes,
    number: usize,
) -> Result<(), Fail> {
    for serial in 0..ENDS {
        write(
            rt,
            pipes,
            EndId { seq: 0, serial },
            message(alloc, serial, number)?,
        );
    }
    Ok(())
}

/// Fills each end.
fn fill<R: Abort>(rt: &R, alloc: Global, pipes: &mut Pipes) -> Result<(), Fail> {
    for number in 0..MAX_UNREAD_MESSAGES {
        write_each(rt, alloc, pipes, number)?;
    }
    Ok(())
}

/// Takes the message of this number at each end: it is that end's own.
fn take_each<L: Ledger, R: Abort>(
    rt: &R,
    alloc: Global,
    pipes: &mut Pipes,
    number: usize,
    steps: &mut Steps<L>,
) -> Result<(), Fail> {
    for serial in 0..ENDS {
        let wanted = message(alloc, serial, number)?;
        let got = read(rt, pipes, EndId { seq: 0, serial }, steps);
        assert!(rt; got.bytes.as_slice() == wanted.bytes.as_slice());
    }
    Ok(())
}

/// Takes all in turn: each end has its own, in order.
fn take_all<L: Ledger, R: Abort>(
    rt: &R,
    alloc: Global,
    pipes: &mut Pipes,
    blank: Blank,
) -> Result<(), Fail>
    requires name { blank.name ≡ L.name }
    requires parts { blank.parts ≡ L.parts }
    requires some { 0 < blank.parts }
{
    let mut steps = Steps::<L>::new(blank);
    for number in 0..MAX_UNREAD_MESSAGES {
        take_each(rt, alloc, pipes, number, &mut steps)?;
    }
    Ok(())
}

#[test]
fn each_end_has_its_own_in_order(rt: HostRuntime) -> Result<(), Fail> {
    let alloc = rt.alloc();
    let mut pipes = Pipes::new(alloc);
    for _number in 0..PIPES {
        make(&rt, alloc, &mut pipes);
    }
    fill(&rt, alloc, &mut pipes)?;
    assert!(rt; pipes.is_full(EndId { seq: 0, serial: 3 }));
    take_all::<Brand, _>(&rt, alloc, &mut pipes, Blank::new(1))?;
    assert!(rt; pipes.front(EndId { seq: 0, serial: 3 }).is_none());
    Ok(())
}

/// The message of this number for an end, with that end's handle; one that the machine emitted, or one that counts.
fn carrying(alloc: Global, end: EndId, number: u32, emitted: bool) -> Result<Message, Fail> {
    let byte = (number % 256) as u8;
    let thing = Thing::End(end);
    Ok(Message {
        bytes: Items::from_vec(Vec::from_slice(alloc, &[byte])?),
        handles: Items::from_vec(Vec::from_slice(alloc, &[thing])?),
        emitted,
    })
}

/// The command of this number: a message, a reading and a closing at each of two ends, and a message and a reading
/// where no end is. What comes to the second end is emitted.
fn command(alloc: Global, number: u32) -> Result<QueueCommand, Fail> {
    let end = EndId {
        seq: 0,
        serial: number / 3,
    };
    Ok(match number % 3 {
        0 => QueueCommand::Write(end, carrying(alloc, end, number, end.serial == 1)?),
        1 => QueueCommand::Read(end),
        _ => QueueCommand::Close(end),
    })
}

/// The list of this number.
fn commands(alloc: Global, list: u32) -> Result<Vec<QueueCommand>, Fail> {
    let mut commands = Vec::new(alloc);
    let mut left = list;
    for _place in 0..LENGTH {
        commands.push(command(alloc, left % COMMANDS)?)?;
        left /= COMMANDS;
    }
    Ok(commands)
}

/// Whether two messages are the same.
fn is_alike(one: &Message, other: &Message) -> bool {
    one.bytes.as_slice() == other.bytes.as_slice()
        && one.handles.as_slice() == other.handles.as_slice()
        && one.emitted == other.emitted
}

/// Whether two replies are the same.
fn is_same(one: &QueueReply, other: &QueueReply) -> bool {
    match (one, other) {
        (QueueReply::Written, QueueReply::Written) => true,
        (QueueReply::Full, QueueReply::Full) => true,
        (QueueReply::NoEnd, QueueReply::NoEnd) => true,
        (QueueReply::Shut, QueueReply::Shut) => true,
        (QueueReply::Got(None), QueueReply::Got(None)) => true,
        (QueueReply::Got(Some(one)), QueueReply::Got(Some(other))) => is_alike(one, other),
        _ => false,
    }
}

/// Whether two lists of replies are the same.
fn are_same(one: &[QueueReply], other: &[QueueReply]) -> bool {
    if one.len() != other.len() {
        return false;
    }
    for at in 0..one.len() {
        if at < other.len() && !is_same(&one[at], &other[at]) {
            return false;
        }
    }
    true
}

/// What commands are told at a pipe, which both forms say alike.
fn told_by_both<R: Abort>(
    rt: &R,
    alloc: Global,
    asked: &[QueueCommand],
) -> Result<Vec<QueueReply>, Fail> {
    let mut plain = Ends::new(alloc);
    let mut slab = SlabEnds::new(alloc);
    plain.push_pair(alloc, FIRST, SECOND)?;
    slab.push_pair(alloc, FIRST, SECOND)?;
    let replies = run_queues(alloc, &mut plain, asked)?;
    let again = run_queues(alloc, &mut slab, asked)?;
    assert!(rt; are_same(replies.as_slice(), again.as_slice()));
    Ok(replies)
}

#[test]
fn both_forms_give_the_same_replies(rt: HostRuntime) -> Result<(), Fail> {
    let alloc = rt.alloc();
    for list in 0..COMMANDS * COMMANDS * COMMANDS * COMMANDS {
        let asked = commands(alloc, list)?;
        let _replies = told_by_both(&rt, alloc, asked.as_slice())?;
    }
    Ok(())
}

/// Adds the writing of a message at the first end.
fn push_write(alloc: Global, commands: &mut Vec<QueueCommand>, emitted: bool) -> Result<(), Fail> {
    let message = carrying(alloc, FIRST, 0, emitted)?;
    commands.push(QueueCommand::Write(FIRST, message))?;
    Ok(())
}

/// Fills the first end; then come a message, one that is emitted, a reading, and two messages more.
fn filling(alloc: Global) -> Result<Vec<QueueCommand>, Fail> {
    let mut commands = Vec::new(alloc);
    for _number in 0..MAX_UNREAD_MESSAGES {
        push_write(alloc, &mut commands, false)?;
    }
    push_write(alloc, &mut commands, false)?;
    push_write(alloc, &mut commands, true)?;
    commands.push(QueueCommand::Read(FIRST))?;
    push_write(alloc, &mut commands, false)?;
    push_write(alloc, &mut commands, false)?;
    Ok(commands)
}

/// Whether the end was full for the command of this place.
fn was_full(replies: &[QueueReply], at: usize) -> bool {
    match replies.get(at) {
        Some(QueueReply::Full) => true,
        _ => false,
    }
}

#[test]
fn a_full_end_takes_what_is_emitted(rt: HostRuntime) -> Result<(), Fail> {
    let alloc = rt.alloc();
    let asked = filling(alloc)?;
    let replies = told_by_both(&rt, alloc, asked.as_slice())?;
    assert_eq!(rt; replies.len(), MAX_UNREAD_MESSAGES + 5);
    assert!(rt; !was_full(replies.as_slice(), MAX_UNREAD_MESSAGES - 1));
    assert!(rt; was_full(replies.as_slice(), MAX_UNREAD_MESSAGES));
    assert!(rt; !was_full(replies.as_slice(), MAX_UNREAD_MESSAGES + 1));
    assert!(rt; !was_full(replies.as_slice(), MAX_UNREAD_MESSAGES + 3));
    assert!(rt; was_full(replies.as_slice(), MAX_UNREAD_MESSAGES + 4));
    Ok(())
}
