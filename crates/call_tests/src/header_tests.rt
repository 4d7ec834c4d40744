//! Messages as bytes that were written down by hand.

use check_files::word_bytes;
use control_bytes::{Control, read_control, write_control};
use message_header::{Head, read_header, write_header, write_ids};
use mj_base::{Fault, FaultKind, Span};
use std::alloc::{AllocError, Global};
use std::test::Fail;

/// A message of version 2 with a struct that holds one endpoint, and that endpoint's id.
const CARRYING: [u32; 20] = [
    48,
    2,
    0,
    0,
    0,
    0,
    0,
    0,
    16,
    0,
    24,
    0,
    16,
    0,
    0,
    0,
    12,
    1,
    0x8000_0001,
    0,
];

/// Places of that message, the number that stands there in another, and the first test that fails of it.
const REFUSED: [(usize, u32, FaultKind, u64); 11] = [
    (0, 7, FaultKind::UnexpectedStructHeader, 0),
    (0, 81, FaultKind::IllegalMemoryRange, 0),
    (4, 3, FaultKind::MessageHeaderInvalidFlags, 16),
    (8, 0, FaultKind::UnexpectedNullPointer, 32),
    (8, 17, FaultKind::MisalignedObject, 49),
    (8, 8, FaultKind::IllegalMemoryRange, 40),
    (9, 1, FaultKind::IllegalPointer, 32),
    (10, 8, FaultKind::IllegalMemoryRange, 48),
    (10, 16, FaultKind::UnexpectedArrayHeader, 56),
    (17, 2, FaultKind::UnexpectedArrayHeader, 64),
    (18, 0, FaultKind::IllegalInterfaceId, 72),
];

/// Whether the message with another number in one place is refused so.
fn is_refused(
    alloc: Global,
    place: usize,
    number: u32,
    kind: FaultKind,
    at: u64,
) -> Result<bool, AllocError> {
    let mut numbers = CARRYING;
    if place < 20 {
        numbers[place] = number;
    }
    let bytes = word_bytes(alloc, &numbers)?;
    Ok(match read_header(&bytes) {
        Ok(_) => false,
        Err(fault) => fault == Fault { kind, at },
    })
}

#[test]
fn a_header_with_ids_is_written_and_read(rt: HostRuntime) -> Result<(), Fail> {
    let alloc = rt.alloc();
    let head = Head {
        interface_id: 0,
        name: 0,
        flags: 0,
        request_id: 9,
        moment: None,
        ids: &[0x8000_0001],
    };
    let mut message = Vec::new(alloc);
    write_header(&mut message, &head, 16)?;
    message.extend_from_slice(&[16, 0, 0, 0, 0, 0, 0, 0, 0, 0, 0, 0, 0, 0, 0, 0])?;
    write_ids(&mut message, head.ids)?;
    let wanted = word_bytes(alloc, &CARRYING)?;
    assert_eq!(rt; message.as_slice(), wanted.as_slice());
    let payload = Span { start: 48, len: 16 };
    let ids = Span { start: 72, len: 4 };
    let read = match read_header(&message) {
        Ok(header) => header.payload == payload && header.ids == ids && header.request_id == 0,
        Err(_) => false,
    };
    assert!(rt; read);
    Ok(())
}

#[test]
fn the_first_test_that_fails_is_told(rt: HostRuntime) -> Result<(), Fail> {
    let alloc = rt.alloc();
    for (place, number, kind, at) in REFUSED {
        let refused = is_refused(alloc, place, number, kind, at)?;
        assert!(rt; refused);
    }
    Ok(())
}

/// What the bytes of a control say, or their first fault.
fn said(bytes: &[u8]) -> Result<Option<Control>, Fault> {
    let header = read_header(bytes)?;
    if header.interface_id == 0xffff_ffff {
        Ok(Some(read_control(bytes, &header)?))
    } else {
        Ok(None)
    }
}

#[test]
fn a_control_is_written_and_read(rt: HostRuntime) -> Result<(), Fail> {
    let alloc = rt.alloc();
    let control = write_control(alloc, Control::Closed(5))?;
    let wanted = word_bytes(alloc, &[24, 0, 0xffff_ffff, 0, 0, 0, 16, 0, 1, 5])?;
    assert_eq!(rt; control.as_slice(), wanted.as_slice());
    assert!(rt; said(&control) == Ok(Some(Control::Closed(5))));
    Ok(())
}
