//! Files as they are given.

use mj_base::{Items, Text};

/// A Mojom file as it is given: the name by which imports name it, and its bytes.
#[derive(Drop)]
pub struct Source {
    pub name: Text,
    pub bytes: Items<u8>,
}
