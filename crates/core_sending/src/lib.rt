//! Calls, answers, raw bytes and controls: whether a message may go, the end that it goes to, and what is written
//! there, with the handles and the pendings that go with it; and ends that are told to wait for others.
#![tactic(auto)]

pub mod answer;
pub mod call;
pub mod carried;
pub mod fitting;
pub mod notify;
pub mod pause;
pub mod raw;
pub mod writing;
