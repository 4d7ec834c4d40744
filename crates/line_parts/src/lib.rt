//! What the lines of a history are put together of, read from bytes: words, numbers, names of things,
//! lists, bytes in hexadecimal, and messages.
#![tactic(auto)]

pub mod hexadecimal;
pub mod ids;
mod items;
pub mod keywords;
pub mod lists;
pub mod messages;
pub mod names;
pub mod numbers;
