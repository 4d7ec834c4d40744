//! What a sequence has no place for.

use bind_model::{Command, PendingList};
use handle_table::{Ended, Handles};

/// What came back for want of memory, or is more than there was memory to hold one by one.
pub enum Kept {
    Handles(Handles),
    Pendings(PendingList),
    Command(Command),
}

impl Kept {
    /// Lets it go, once all is over.
    fn retire(self, over: &Ended) {
        match self {
            Kept::Handles(handles) => handles.retire(over),
            Kept::Pendings(pendings) => pendings.retire(over),
            Kept::Command(command) => command.retire(over),
        }
    }
}

/// Lets all go, once all is over.
pub fn retire_all(mut kept: Vec<Kept>, over: &Ended) {
    while let Some(one) = kept.pop() {
        one.retire(over);
    }
    kept.destroy_empty();
}
