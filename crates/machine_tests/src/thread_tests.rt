//! Four threads over one hub.

use crate::stepper_tests::no_definitions;
use hub_tests::pipes_by_threads;
use std::sync::Arc;
use std::test::Fail;

// Each of them gets all its turns, and no event is lost.
#[test]
fn four_threads_make_pipes(rt: HostRuntime) -> Result<(), Fail> {
    let schema = Arc::new(rt.alloc(), no_definitions(rt.alloc()))?;
    let Some(history) = pipes_by_threads(&rt, rt.alloc(), schema, 4) else {
        panic!(rt; "no memory")
    };
    assert!(rt; history.len() == 400);
    Ok(())
}
