//! Takes: what the oldest unread message at an end says there, and the handles, the pendings and the right to
//! answer that come out of it.
#![tactic(auto)]

pub mod admit;
mod dropping;
pub mod hear;
mod indexes;
pub mod obey;
pub mod pendings;
pub mod reading;
pub mod receive;
pub mod slots;
pub mod take;
