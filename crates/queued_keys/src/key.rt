//! Keys of messages.

/// The key of a message: its place in a slab, and whether the machine wrote it by itself.
#[derive(Clone, Copy)]
pub struct Key {
    pub at: u32,
    pub emitted: bool,
}
