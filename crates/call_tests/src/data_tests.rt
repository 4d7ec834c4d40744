//! What a data pipe by itself answers, row by row, and how one is found among others.

use bind_model::Why;
use data_pipe::{DataPipe, DataRefused, DataTable, DataToken, DataWhy, Side};
use handle_table::{Thing, TokenId};
use mj_base::Items;
use std::alloc::Global;
use std::test::Fail;

/// What is asked at a side.
#[derive(Clone, Copy)]
enum Ask {
    Put(&'static [u8]),
    PutAll(&'static [u8]),
    BeginPut,
    EndPut(&'static [u8]),
    Get(u32),
    GetAll(u32),
    BeginGet,
    EndGet(u32),
}

/// What is told.
#[derive(Clone, Copy)]
enum Say {
    Count(u32),
    Bytes(&'static [u8]),
    Ended,
    No(DataWhy),
}

/// Whether that many bytes are told, or that refusal.
fn is_count(told: Result<u32, DataWhy>, say: Say) -> bool {
    match (told, say) {
        (Ok(count), Say::Count(wanted)) => count == wanted,
        (Err(why), Say::No(wanted)) => why == wanted,
        _ => false,
    }
}

/// Whether these bytes come out, or that refusal.
fn are_bytes(told: &Result<Items<u8>, DataRefused>, say: Say) -> bool {
    match (told, say) {
        (Ok(bytes), Say::Bytes(wanted)) => bytes.as_slice() == wanted,
        (Err(DataRefused::No(why)), Say::No(wanted)) => *why == wanted,
        _ => false,
    }
}

/// Whether a get ends so.
fn is_ended(told: Result<(), DataWhy>, say: Say) -> bool {
    match (told, say) {
        (Ok(()), Say::Ended) => true,
        (Err(why), Say::No(wanted)) => why == wanted,
        _ => false,
    }
}

/// Whether a data pipe answers so, where the other side is gone or isn't.
fn answers(alloc: Global, pipe: &mut DataPipe, ask: Ask, gone: bool, say: Say) -> bool {
    match ask {
        Ask::Put(bytes) => is_count(pipe.put(bytes, false, gone), say),
        Ask::PutAll(bytes) => is_count(pipe.put(bytes, true, gone), say),
        Ask::BeginPut => is_count(pipe.begin_put(gone), say),
        Ask::EndPut(bytes) => is_count(pipe.end_put(bytes, gone), say),
        Ask::Get(count) => are_bytes(&pipe.get(alloc, count, false, gone), say),
        Ask::GetAll(count) => are_bytes(&pipe.get(alloc, count, true, gone), say),
        Ask::BeginGet => are_bytes(&pipe.begin_get(alloc, gone), say),
        Ask::EndGet(count) => is_ended(pipe.end_get(count), say),
    }
}

/// The calls of a data pipe of four bytes, one after the other, and what each is told.
const ROWS: [(Ask, bool, Say); 33] = [
    (Ask::Put(b"12345"), false, Say::Count(4)),
    (Ask::PutAll(b"a"), false, Say::No(DataWhy::Full)),
    (Ask::Put(b""), false, Say::Count(0)),
    (Ask::BeginPut, false, Say::No(DataWhy::Full)),
    (Ask::Get(3), false, Say::Bytes(b"123")),
    (Ask::PutAll(b"67"), false, Say::Count(2)),
    (Ask::PutAll(b"89"), false, Say::No(DataWhy::Short(1))),
    (Ask::BeginGet, false, Say::Bytes(b"467")),
    (Ask::Get(1), false, Say::No(DataWhy::Busy)),
    (Ask::BeginGet, false, Say::No(DataWhy::Busy)),
    (Ask::Put(b"8"), false, Say::Count(1)),
    (Ask::EndGet(4), false, Say::No(DataWhy::TooLong)),
    (Ask::EndGet(2), false, Say::Ended),
    (Ask::EndGet(0), false, Say::No(DataWhy::Idle)),
    (Ask::GetAll(3), true, Say::No(DataWhy::Short(2))),
    (Ask::Get(9), true, Say::Bytes(b"78")),
    (Ask::Get(1), true, Say::No(DataWhy::PeerClosed)),
    (Ask::BeginGet, true, Say::No(DataWhy::PeerClosed)),
    (Ask::Get(0), true, Say::Bytes(b"")),
    (Ask::GetAll(1), false, Say::No(DataWhy::Empty)),
    (Ask::BeginGet, false, Say::No(DataWhy::Empty)),
    (Ask::EndPut(b""), false, Say::No(DataWhy::Idle)),
    (Ask::BeginPut, true, Say::No(DataWhy::Disconnected)),
    (Ask::BeginPut, false, Say::Count(4)),
    (Ask::Put(b"1"), false, Say::No(DataWhy::Busy)),
    (Ask::BeginPut, false, Say::No(DataWhy::Busy)),
    (Ask::EndPut(b"12345"), false, Say::No(DataWhy::TooLong)),
    (Ask::EndPut(b"1"), true, Say::No(DataWhy::Disconnected)),
    (Ask::EndPut(b"1234"), false, Say::Count(4)),
    (Ask::Put(b""), true, Say::No(DataWhy::Disconnected)),
    (Ask::GetAll(5), false, Say::No(DataWhy::Short(4))),
    (Ask::GetAll(3), false, Say::Bytes(b"123")),
    (Ask::Get(1), true, Say::Bytes(b"4")),
];

#[test]
fn a_data_pipe_answers_row_by_row(rt: HostRuntime) -> Result<(), Fail> {
    let alloc = rt.alloc();
    let Ok(mut pipe) = DataPipe::new(alloc, 4) else {
        panic!(rt; "no memory");
    };
    for (ask, gone, say) in ROWS {
        assert!(rt; answers(alloc, &mut pipe, ask, gone, say));
    }
    Ok(())
}

/// Whether a data pipe may not hold so many bytes.
fn is_refused(alloc: Global, capacity: u32) -> bool {
    match DataPipe::new(alloc, capacity) {
        Err(DataRefused::No(why)) => why == DataWhy::BadSize(capacity),
        _ => false,
    }
}

#[test]
fn a_data_pipe_has_a_size(rt: HostRuntime) -> Result<(), Fail> {
    let alloc = rt.alloc();
    assert!(rt; is_refused(alloc, 0) && is_refused(alloc, 65_537));
    let Ok(mut pipe) = DataPipe::new(alloc, 65_536) else {
        panic!(rt; "no memory");
    };
    assert!(rt; is_count(pipe.put(b"seven b", false, false), Say::Count(7)));
    assert_eq!(rt; pipe.room(), 65_529);
    assert_eq!(rt; pipe.first(alloc, 5)?.as_slice(), b"seven".as_slice());
    let token = TokenId { seq: 1, serial: 2 };
    assert!(rt; DataWhy::Busy.at(token) == Why::Busy(token));
    Ok(())
}

const PRODUCER: TokenId = TokenId { seq: 1, serial: 4 };

const CONSUMER: TokenId = TokenId { seq: 1, serial: 5 };

#[test]
fn a_data_pipe_is_found_by_its_tokens(rt: HostRuntime) -> Result<(), Fail> {
    let alloc = rt.alloc();
    let Ok(mut pipe) = DataPipe::new(alloc, 2) else {
        panic!(rt; "no memory");
    };
    assert!(rt; is_count(pipe.begin_put(false), Say::Count(2)));
    let mut table = DataTable::new(alloc);
    table.enter(PRODUCER, pipe)?;
    let is_consumer = match table.find(CONSUMER) {
        Some(DataToken { producer, side }) => {
            producer == PRODUCER && matches!(side, Side::Consumer)
        }
        None => false,
    };
    assert!(rt; is_consumer);
    assert!(rt; table.is_begun(PRODUCER) && !table.is_begun(CONSUMER));
    let things = [Thing::Token(CONSUMER), Thing::Token(PRODUCER)];
    assert!(rt; table.first_begun(&things) == Some(PRODUCER));
    table.remove(PRODUCER);
    assert!(rt; table.find(PRODUCER).is_none());
    Ok(())
}
