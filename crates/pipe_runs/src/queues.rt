//! Whatever keeps ends with their unread messages.

ghost use Rattle.std.specs.Prelude.{◌≡◌, nat_le, is_some, OnOk, IfErr, IsSome, Option};
ghost use Rattle.mj_base.specs.declared.ids.EndId.{EndId as end_id};
ghost use Rattle.mj_base.specs.declared.limits.TheConstants.{MAX_UNREAD_MESSAGES};
ghost use Rattle.pipe_runs.specs.Commands.{Stay, Turns};
ghost use Rattle.message_pipe.specs.Ends.{shut, unread_of, with_message, without_front};
ghost use Rattle.message_pipe.specs.Mail.{front_of, weighs};
ghost use Rattle.message_pipe.specs.declared.pipe_end.PipeEnd.{PipeEnd as end_row};

use message_pipe::Message;
use mj_base::EndId;

/// Keeps ends with the messages that lie unread at them. Contracts see each end that was made, however it
/// is kept.
pub trait Queues {
    ghost contents: { Self → end_id → Option end_row };

    /// Whether an end was made.
    fn has_end(&self, end: EndId) -> bool
        ensures { result ≡ is_some (contents self.now end) };

    /// Whether 4,096 messages that weren't emitted lie unread at an end.
    fn has_no_room(&self, end: EndId) -> bool
        ensures { result ≡ nat_le MAX_UNREAD_MESSAGES (weighs (unread_of (contents self.now end))) };

    /// One message more at an end that was made. Without memory it comes back.
    fn write(&mut self, end: EndId, message: Message) -> Result<(), Message>
        requires { IsSome (contents self.old end) }
        ensures ok { OnOk result (Turns end (with_message message) (contents self.old) (contents self.new)) }
        ensures err { IfErr result (λ back. (back ≡ message) × Stay (contents self.old) (contents self.new)) };

    /// Takes the oldest message at an end that was made away; none exactly where nothing is unread.
    fn read(&mut self, end: EndId) -> Option<Message>
        requires { IsSome (contents self.old end) }
        ensures front { result ≡ front_of (unread_of (contents self.old end)) }
        ensures rest { Turns end without_front (contents self.old) (contents self.new) };

    /// Closes an end, where it was made: nothing lies at it any more.
    fn close(&mut self, end: EndId)
        ensures { Turns end shut (contents self.old) (contents self.new) };
}
