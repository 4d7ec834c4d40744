//! The versions of interfaces.

use crate::compiled::compiled;
use std::alloc::{AllocError, Global};
use std::test::Fail;

/// The version of the first interface of a text; none where the text is refused or has no interface.
fn version_of(alloc: Global, text: &str) -> Result<Option<u32>, AllocError> {
    let Some(schema) = compiled(alloc, text)? else {
        return Ok(None);
    };
    match schema.interfaces.as_slice().first() {
        Some(row) => Ok(Some(row.version)),
        None => Ok(None),
    }
}

/// Interfaces, and their versions.
const VERSIONS: [(&str, u32); 4] = [
    ("interface P { Ping(uint32 n); const int32 LAST = 9; };", 0),
    (
        "interface P { Ping(uint32 n, [MinVersion=1] string? t); };",
        1,
    ),
    (
        "interface P { Ping([MinVersion=1] string? t) => ([MinVersion=2] bool b); };",
        2,
    ),
    ("interface P { [MinVersion=3] Ping(); Pong(); };", 3),
];

#[test]
fn the_version_of_an_interface_is_the_greatest_of_its_methods_and_of_their_parameters(
    rt: HostRuntime,
) -> Result<(), Fail> {
    let alloc = rt.alloc();
    for (text, version) in VERSIONS.as_slice() {
        assert_eq!(rt; version_of(alloc, *text)?, Some(*version));
    }
    Ok(())
}
