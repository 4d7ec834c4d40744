//! Audits printed histories: whether a text is that of a run of a script, and else where it stops to be one.
#![tactic(auto)]

mod auditing;
mod judge;
pub mod laws;
mod texts;

pub use auditing::{AuditError, AuditFinding, audit};
