//! What keeps ends by a slab of their messages, as one of those that runs are over.

ghost use Rattle.message_pipe.specs.Ends.{end_of};

use crate::queues::Queues;
use message_pipe::{Message, SlabEnds};
use mj_base::EndId;

impl Queues for SlabEnds {
    ghost contents = { λ ends x. end_of ends x };

    fn has_end(&self, end: EndId) -> bool {
        self.peer(end).is_some()
    }

    fn has_no_room(&self, end: EndId) -> bool {
        self.is_full(end)
    }

    fn write(&mut self, end: EndId, message: Message) -> Result<(), Message> {
        self.push_message(end, message)
    }

    fn read(&mut self, end: EndId) -> Option<Message> {
        self.pop_message(end)
    }

    fn close(&mut self, end: EndId) {
        self.shut(end);
    }
}
