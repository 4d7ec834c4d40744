//! The two sides of a data pipe.

use handle_table::TokenId;

/// A side of a data pipe.
#[derive(Clone, Copy)]
pub enum Side {
    Producer,
    Consumer,
}

/// A token of a data pipe: that of its producer, and the side that it is of.
#[derive(Clone, Copy)]
pub struct DataToken {
    pub producer: TokenId,
    pub side: Side,
}
