//! What a control says.

/// What a control says to the end that it is read at.
#[derive(Clone, Copy, PartialEq, Eq)]
pub enum Control {
    /// The peer of the endpoint of this id is closed.
    Closed(u32),
    /// Which version has the interface of the endpoint of this id?
    Query(u32),
    /// The interface of the endpoint of this id has that version.
    Version(u32, u32),
    /// The interface of the endpoint of this id is to have at least that version.
    Require(u32, u32),
    /// The flush of this number: all that was written before is consumed.
    Flush(u32),
}
