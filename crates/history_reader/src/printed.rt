//! What a text says.

use bind_model::Event;
use handle_table::Thing;
use history_text::Note;
use mj_base::Items;

/// What the text of a history says: the events, the oldest first, the callbacks, what is left, and how
/// many events it says there were. A responder's interface isn't in the text, so it is 0 here.
#[derive(Drop)]
pub struct Printed {
    pub events: Items<Event>,
    pub notes: Items<Note>,
    pub left: Items<Thing>,
    pub count: u64,
}
