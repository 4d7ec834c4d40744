//! Tests, and the first of them that fails.

use mj_base::{Fault, FaultKind};

/// A test.
#[derive(Clone, Copy)]
pub enum Test {
    /// Something holds, or there is this fault.
    Holds { holds: bool, fault: Fault },
    /// So many bytes lie behind the last claim, and before the end that is allowed.
    Range { at: u64, len: u64 },
    /// The bytes up to an end are claimed.
    Claim { end: u64 },
    /// The index of a handle, which is above the last one and below the number of handles.
    Handle { index: u64, at: u64 },
    /// The index of an id, which is above the last one and below the number of ids.
    Id { index: u64, at: u64 },
}

impl Test {
    /// Something holds, or there is a fault of a kind at a place.
    pub fn new(holds: bool, kind: FaultKind, at: u64) -> Test {
        Test::Holds {
            holds,
            fault: Fault { kind, at },
        }
    }
}

/// What was claimed so far: bytes up to an end, and handles and ids below these.
#[derive(Clone, Copy)]
pub struct Claimed {
    pub bytes: u64,
    pub handles: u64,
    pub ids: u64,
}

/// Where bytes end, and how many handles and ids there are.
#[derive(Clone, Copy)]
pub struct Limits {
    pub end: u64,
    pub handles: u64,
    pub ids: u64,
}

/// The fault of an index that isn't between these.
fn index_fault(least: u64, index: u64, count: u64, kind: FaultKind, at: u64) -> Option<Fault> {
    if index < least || index >= count {
        Some(Fault { kind, at })
    } else {
        None
    }
}

/// What a test claims, or its fault.
fn outcome(test: Test, claimed: Claimed, limits: Limits) -> (Claimed, Option<Fault>) {
    match test {
        Test::Holds { holds: true, .. } => (claimed, None),
        Test::Holds { fault, .. } => (claimed, Some(fault)),
        Test::Range { at, len } => {
            let kind = FaultKind::IllegalMemoryRange;
            if at < claimed.bytes || at.saturating_add(len) > limits.end {
                (claimed, Some(Fault { kind, at }))
            } else {
                (claimed, None)
            }
        }
        Test::Claim { end } => (
            Claimed {
                bytes: end,
                ..claimed
            },
            None,
        ),
        Test::Handle { index, at } => {
            let kind = FaultKind::IllegalHandle;
            let fault = index_fault(claimed.handles, index, limits.handles, kind, at);
            let handles = index.saturating_add(1);
            (Claimed { handles, ..claimed }, fault)
        }
        Test::Id { index, at } => {
            let kind = FaultKind::IllegalInterfaceId;
            let fault = index_fault(claimed.ids, index, limits.ids, kind, at);
            let ids = index.saturating_add(1);
            (Claimed { ids, ..claimed }, fault)
        }
    }
}

/// The fault of the first test that fails, where claims begin at a place.
pub fn first_fault(tests: &[Test], start: u64, limits: Limits) -> Option<Fault> {
    let mut claimed = Claimed {
        bytes: start,
        handles: 0,
        ids: 0,
    };
    for test in tests {
        let (next, fault) = outcome(*test, claimed, limits);
        if fault.is_some() {
            return fault;
        }
        claimed = next;
    }
    None
}
