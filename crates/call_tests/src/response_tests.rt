//! Callbacks from their putting to their taking or their drop.

ghost use Rattle.std.specs.Prelude.{◌≡◌, ◌<◌, None, OnOk};
ghost use Rattle.std.specs.FinMap as map;

use mj_base::EndId;
use response_map::{Key, ResponseMap};
use std::process::Abort;
use std::test::Fail;

const FIRST: EndId = EndId { seq: 0, serial: 0 };

const SECOND: EndId = EndId { seq: 0, serial: 1 };

/// The first request of an endpoint.
fn first_of(end: EndId, id: u32) -> Key {
    Key {
        end,
        id,
        request: 1,
    }
}

/// Puts a number under a request that has none.
fn put(
    rt: &impl Abort,
    responses: &mut ResponseMap<u32>,
    key: Key,
    number: u32,
) -> Result<(), Fail> {
    responses.reserve()?;
    assert!(rt; !responses.contains(key));
    responses.put(key, number);
    Ok(())
}

/// Whether endpoints 0 and 1 of the first end, and endpoint 0 of the second, have a callback.
fn present(responses: &ResponseMap<u32>) -> (bool, bool, bool) {
    (
        responses.contains(first_of(FIRST, 0)),
        responses.contains(first_of(FIRST, 1)),
        responses.contains(first_of(SECOND, 0)),
    )
}

#[test]
fn a_callback_is_taken_once_or_dropped(rt: HostRuntime) -> Result<(), Fail> {
    let mut responses = ResponseMap::new(rt.alloc());
    put(&rt, &mut responses, first_of(SECOND, 0), 3)?;
    put(&rt, &mut responses, first_of(FIRST, 1), 2)?;
    put(&rt, &mut responses, first_of(FIRST, 0), 1)?;
    assert_eq!(rt; responses.take(first_of(FIRST, 1)), Some(2));
    assert_eq!(rt; responses.take(first_of(FIRST, 1)), None);
    responses.drop_endpoint(FIRST, 0);
    assert_eq!(rt; present(&responses), (false, false, true));
    Ok(())
}

#[test]
fn callbacks_go_with_their_end_or_with_all(rt: HostRuntime) -> Result<(), Fail> {
    let mut responses = ResponseMap::new(rt.alloc());
    put(&rt, &mut responses, first_of(FIRST, 1), 4)?;
    put(&rt, &mut responses, first_of(SECOND, 0), 5)?;
    responses.drop_end(FIRST);
    assert_eq!(rt; present(&responses), (false, false, true));
    responses.drop_all();
    assert_eq!(rt; present(&responses), (false, false, false));
    Ok(())
}

/// Takes what threads may hand on.
fn is_sent<T: Send>(_value: &T) {}

#[test]
fn a_map_may_be_handed_to_a_thread(rt: HostRuntime) {
    let responses: ResponseMap<u32> = ResponseMap::new(rt.alloc());
    is_sent(&responses);
}
