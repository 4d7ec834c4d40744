//! The ring of one data pipe: the bytes that went in and didn't come out yet, and what was begun at its
//! two sides; and the table of all data pipes.
#![tactic(auto)]

pub mod laws;
mod refused;
mod ring;
mod side;
mod table;

pub use refused::{DataRefused, DataWhy};
pub use ring::DataPipe;
pub use side::{DataToken, Side};
pub use table::DataTable;
