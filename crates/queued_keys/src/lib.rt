//! The ends of pipes with the keys of what lies unread at them. The messages themselves stand elsewhere.
#![tactic(auto)]

mod key;
mod key_queue;
mod keyed_end;
mod keyed_ends;
mod keyed_list;

pub use key::Key;
pub use key_queue::KeyQueue;
pub use keyed_end::KeyedEnd;
pub use keyed_ends::KeyedEnds;
