//! Runs of commands at ends, however the ends are kept.

ghost use Rattle.std.specs.Prelude.{◌≡◌, ◌&&◌, ℕ, not, nat_le, take, IfOk, OnOk, OnErr};
ghost use Rattle.mj_base.specs.declared.limits.TheConstants.{MAX_UNREAD_MESSAGES};
ghost use Rattle.pipe_runs.specs.Commands.{Stay, after, after_all, named, replies_to, told};
ghost use Rattle.message_pipe.specs.Ends.{unread_of};
ghost use Rattle.message_pipe.specs.Mail.{weighs};
ghost use Rattle.pipe_runs.specs.declared.run.QueueCommand.TheVariants as asked;

use crate::queues::Queues;
use message_pipe::Message;
use mj_base::EndId;
use std::alloc::{AllocError, Global};

/// What is asked of ends.
#[derive(Drop)]
pub enum QueueCommand {
    /// A message more at an end.
    Write(EndId, Message),
    /// The oldest message at an end.
    Read(EndId),
    /// The closing of an end.
    Close(EndId),
}

/// What is told.
#[derive(Drop)]
pub enum QueueReply {
    Written,
    /// 4,096 messages that weren't emitted lie there already.
    Full,
    /// The end was never made.
    NoEnd,
    /// The oldest message, where one was unread.
    Got(Option<Message>),
    Shut,
}

/// The same message once more.
fn copied(alloc: Global, message: &Message) -> Result<Message, AllocError>
    ensures { IfOk result (λ other. other ≡ message.now) }
{
    let bytes = message.bytes.copy(alloc)?;
    let handles = message.handles.copy(alloc)?;
    Ok(Message {
        bytes,
        handles,
        emitted: message.emitted,
    })
}

/// Whether an end takes no such message.
fn is_refused<Q: Queues>(queues: &Q, end: EndId, emitted: bool) -> bool
    ensures { result ≡ (not emitted && nat_le MAX_UNREAD_MESSAGES (weighs (unread_of (Q.contents queues.now end)))) }
{
    !emitted && queues.has_no_room(end)
}

/// Writes a message at an end.
fn write_one<Q: Queues>(
    alloc: Global,
    queues: &mut Q,
    end: EndId,
    message: &Message,
) -> Result<QueueReply, AllocError>
    ensures told { IfOk result (λ reply. reply ≡ told (asked.Write end message.now) (Q.contents queues.old end)) }
    ensures after { OnOk result (Stay (after (asked.Write end message.now) (Q.contents queues.old)) (Q.contents queues.new)) }
    ensures err { OnErr result (Stay (Q.contents queues.old) (Q.contents queues.new)) }
{
    if !queues.has_end(end) {
        return Ok(QueueReply::NoEnd);
    }
    if is_refused(queues, end, message.emitted) {
        return Ok(QueueReply::Full);
    }
    let copy = copied(alloc, message)?;
    match queues.write(end, copy) {
        Ok(()) => Ok(QueueReply::Written),
        Err(_back) => Err(AllocError),
    }
}

/// Reads the oldest message at an end.
fn read_one<Q: Queues>(queues: &mut Q, end: EndId) -> QueueReply
    ensures told { result ≡ told (asked.Read end) (Q.contents queues.old end) }
    ensures after { Stay (after (asked.Read end) (Q.contents queues.old)) (Q.contents queues.new) }
{
    if !queues.has_end(end) {
        return QueueReply::NoEnd;
    }
    QueueReply::Got(queues.read(end))
}

/// Does one command.
fn run_one<Q: Queues>(
    alloc: Global,
    queues: &mut Q,
    command: &QueueCommand,
) -> Result<QueueReply, AllocError>
    ensures told { IfOk result (λ reply. reply ≡ told command.now (Q.contents queues.old (named command.now))) }
    ensures after { OnOk result (Stay (after command.now (Q.contents queues.old)) (Q.contents queues.new)) }
    ensures err { OnErr result (Stay (Q.contents queues.old) (Q.contents queues.new)) }
{
    match command {
        QueueCommand::Write(end, message) => write_one(alloc, queues, *end, message),
        QueueCommand::Read(end) => Ok(read_one(queues, *end)),
        QueueCommand::Close(end) => {
            queues.close(*end);
            Ok(QueueReply::Shut)
        }
    }
}

/// Does commands in order. What they are told depends on what the ends have, and not on how it is kept.
/// Without memory the first so many are done.
pub fn run_queues<Q: Queues>(
    alloc: Global,
    queues: &mut Q,
    commands: &[QueueCommand],
) -> Result<Vec<QueueReply>, AllocError>
    ensures replies { IfOk result (λ replies. replies.items ≡ replies_to commands.now (Q.contents queues.old)) }
    ensures after { OnOk result (Stay (after_all commands.now (Q.contents queues.old)) (Q.contents queues.new)) }
    ensures err { OnErr result ((n : ℕ) × Stay (after_all (take n commands.now) (Q.contents queues.old)) (Q.contents queues.new)) }
{
    let mut replies = Vec::new(alloc);
    for command in commands {
        let reply = run_one(alloc, queues, command)?;
        replies.push(reply)?;
    }
    Ok(replies)
}
