//! Where names stand.

/// Where a name stands in the index: its node, and how many dots it has.
#[derive(Clone, Copy)]
pub struct Entry {
    pub node: u32,
    pub dots: usize,
}
