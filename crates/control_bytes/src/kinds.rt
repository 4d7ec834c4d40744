//! The kinds and the sizes of controls.

/// The bytes of the payload of a control with one number.
pub const SHORT_BYTES: u32 = 16;

/// The bytes of the payload of a control with two numbers.
pub const LONG_BYTES: u32 = 24;

/// The kind of a control that tells that an endpoint was closed.
pub const CLOSED_KIND: u32 = 1;

/// The kind of a control that asks for the version of an interface.
pub const QUERY_KIND: u32 = 2;

/// The kind of a control that tells the version of an interface.
pub const VERSION_KIND: u32 = 3;

/// The kind of a control that requires a version of an interface.
pub const REQUIRE_KIND: u32 = 4;

/// The kind of a control that stands behind all that was written before it.
pub const FLUSH_KIND: u32 = 5;
