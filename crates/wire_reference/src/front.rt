//! The tests that come before the payload, and what the header says.

use crate::bytes::{are_there, number32, number64};
use crate::follow::MOST_DISTANCE;
use crate::judge::Test;
use mj_base::FaultKind;
use mj_schema::{MethodRow, Schema};
use std::alloc::{AllocError, Global};
use wire_model::{Expected, MessageSide};

/// The id of control messages.
const CONTROL: u64 = 0xffff_ffff;

/// What the header says: where the payload is, how many ids there are, the request id, and the moment.
#[derive(Clone, Copy)]
pub struct Bounds {
    pub start: u64,
    pub end: u64,
    pub ids: u64,
    pub request: u64,
    pub moment: Option<i64>,
}

/// What the header says; meaningful where its tests pass.
pub fn bounds_of(bytes: &[u8]) -> Bounds {
    let version = number32(bytes, 4);
    let end = bytes.len() as u64;
    let request = if version == 0 { 0 } else { number64(bytes, 24) };
    if version < 2 {
        return Bounds {
            start: number32(bytes, 0),
            end,
            ids: 0,
            request,
            moment: None,
        };
    }
    let start = number64(bytes, 32).saturating_add(32);
    let list = number64(bytes, 40).saturating_add(40);
    let (end, ids) = if list == 40 {
        (end, 0)
    } else {
        (list, number32(bytes, list.saturating_add(4)))
    };
    Bounds {
        start,
        end,
        ids,
        request,
        moment: moment_of(bytes, version),
    }
}

/// The moment, which versions below 3 lack.
fn moment_of(bytes: &[u8], version: u64) -> Option<i64> {
    if version < 3 {
        return None;
    }
    Some(number64(bytes, 48).cast_signed())
}

/// The bytes of a header of this version.
fn header_fits(version: u64, size: u64) -> bool {
    match version {
        0 => size == 24,
        1 => size == 32,
        2 => size == 48,
        3 => size == 56,
        _ => size >= 56,
    }
}

/// The tests of the header, in order.
pub fn header_tests(alloc: Global, bytes: &[u8]) -> Result<Vec<Test>, AllocError> {
    let size = number32(bytes, 0);
    let version = number32(bytes, 4);
    let flags = number32(bytes, 16) % 4;
    let fits = header_fits(version, size);
    let has_request = version > 0 || flags == 0;
    let mut tests = Vec::new(alloc);
    tests.extend_from_slice(&[
        Test::Range { at: 0, len: 8 },
        Test::new(size >= 8, FaultKind::UnexpectedStructHeader, 0),
        Test::Range { at: 0, len: size },
        Test::new(fits, FaultKind::UnexpectedStructHeader, 0),
        Test::new(flags != 3, FaultKind::MessageHeaderInvalidFlags, 16),
        Test::new(has_request, FaultKind::MessageHeaderMissingRequestId, 16),
    ])?;
    if version >= 2 {
        add_payload(bytes, size, &mut tests)?;
    }
    Ok(tests)
}

/// Adds the tests of the two pointers of a header.
fn add_payload(bytes: &[u8], size: u64, tests: &mut Vec<Test>) -> Result<(), AllocError> {
    let distance = number64(bytes, 32);
    let start = distance.saturating_add(32);
    let is_near = distance <= MOST_DISTANCE;
    let is_within = start >= size && are_there(bytes, start, 0);
    tests.extend_from_slice(&[
        Test::new(distance != 0, FaultKind::UnexpectedNullPointer, 32),
        Test::new(is_near, FaultKind::IllegalPointer, 32),
        Test::new(start % 8 == 0, FaultKind::MisalignedObject, start),
        Test::new(is_within, FaultKind::IllegalMemoryRange, start),
    ])?;
    if number64(bytes, 40) == 0 {
        return Ok(());
    }
    add_ids(bytes, start, tests)
}

/// Adds the tests of the array of ids.
fn add_ids(bytes: &[u8], start: u64, tests: &mut Vec<Test>) -> Result<(), AllocError> {
    let distance = number64(bytes, 40);
    let list = distance.saturating_add(40);
    let is_near = distance <= MOST_DISTANCE;
    let is_behind = list >= start.saturating_add(8) && are_there(bytes, list, 8);
    let size = number32(bytes, list);
    let count = number32(bytes, list.saturating_add(4));
    let has_room = size >= count.saturating_mul(4).saturating_add(8);
    let is_whole = are_there(bytes, list, size);
    tests.extend_from_slice(&[
        Test::new(is_near, FaultKind::IllegalPointer, 40),
        Test::new(list % 8 == 0, FaultKind::MisalignedObject, list),
        Test::new(is_behind, FaultKind::IllegalMemoryRange, list),
        Test::new(has_room, FaultKind::UnexpectedArrayHeader, list),
        Test::new(is_whole, FaultKind::IllegalMemoryRange, list),
    ])?;
    if has_room && is_whole {
        add_each_id(bytes, list.saturating_add(8), count, tests)?;
    }
    Ok(())
}

/// Adds the tests of so many ids.
fn add_each_id(
    bytes: &[u8],
    first: u64,
    count: u64,
    tests: &mut Vec<Test>,
) -> Result<(), AllocError> {
    for k in 0..count {
        let at = first.saturating_add(k.saturating_mul(4));
        let id = number32(bytes, at);
        let is_id = id != 0 && id != CONTROL;
        tests.push(Test::new(is_id, FaultKind::IllegalInterfaceId, at))?;
    }
    Ok(())
}

/// The method that a message names.
pub fn method_of<'a>(
    schema: &'a Schema,
    expected: Expected,
    bytes: &[u8],
) -> Option<&'a MethodRow> {
    let interfaces = schema.interfaces.as_slice();
    let interface = interfaces.get(expected.interface as usize)?;
    let name = number32(bytes, 12);
    let methods = interface.methods.as_slice();
    methods
        .iter()
        .find(|method| u64::from(method.ordinal) == name)
}

/// The number of the struct that a message of this side has, where the method has a message of it.
pub fn parameters(side: MessageSide, method: &MethodRow) -> Option<u32> {
    match side {
        MessageSide::Request => Some(method.request),
        MessageSide::Response => method.response,
    }
}

/// The test of the flags of a message of this side.
pub fn flags_test(side: MessageSide, method: &MethodRow, bytes: &[u8]) -> Test {
    let flags = number32(bytes, 16) % 4;
    let wanted = match side {
        MessageSide::Response => 2,
        MessageSide::Request if method.response.is_some() => 1,
        MessageSide::Request => 0,
    };
    Test::new(flags == wanted, FaultKind::MessageHeaderInvalidFlags, 16)
}
