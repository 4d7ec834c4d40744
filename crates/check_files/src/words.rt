//! The bytes of numbers of 32 bits.

use mj_base::push_le32;
use std::alloc::{AllocError, Global};

/// Adds the bytes of numbers of 32 bits, each the lowest first.
pub fn push_words(out: &mut Vec<u8>, words: &[u32]) -> Result<(), AllocError> {
    for word in words {
        push_le32(out, *word)?;
    }
    Ok(())
}

/// The bytes of numbers of 32 bits, each the lowest first.
pub fn word_bytes(alloc: Global, words: &[u32]) -> Result<Vec<u8>, AllocError> {
    let mut bytes = Vec::new(alloc);
    push_words(&mut bytes, words)?;
    Ok(bytes)
}
