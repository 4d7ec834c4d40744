//! Numbers in bytes.

/// The byte at a place, 0 past the end.
pub fn byte_at(bytes: &[u8], at: u64) -> u64 {
    bytes.get(at as usize).map_or(0, |byte| u64::from(*byte))
}

/// The number in so many bytes (8 at most) from a place on, the least first.
fn number_at(bytes: &[u8], at: u64, width: u64) -> u64 {
    let mut number: u64 = 0;
    let mut weight: u64 = 1;
    for k in 0..width {
        let digit = byte_at(bytes, at.saturating_add(k));
        number = number.saturating_add(digit.saturating_mul(weight));
        weight = weight.saturating_mul(256);
    }
    number
}

/// A bit of a byte, the lowest first.
pub fn bit_at(bytes: &[u8], at: u64, bit: u32) -> bool {
    let mut byte = byte_at(bytes, at);
    for _ in 0..bit {
        byte /= 2;
    }
    byte % 2 == 1
}

/// The number of 16 bits at a place.
pub fn number16(bytes: &[u8], at: u64) -> u64 {
    number_at(bytes, at, 2)
}

/// The number of 32 bits at a place.
pub fn number32(bytes: &[u8], at: u64) -> u64 {
    number_at(bytes, at, 4)
}

/// The number of 32 bits at a place, as a word.
pub fn word(bytes: &[u8], at: u64) -> u32 {
    u32::try_from(number32(bytes, at)).unwrap_or(u32::MAX)
}

/// The number of 64 bits at a place.
pub fn number64(bytes: &[u8], at: u64) -> u64 {
    number_at(bytes, at, 8)
}

/// Whether so many bytes from a place on are there.
pub fn are_there(bytes: &[u8], at: u64, count: u64) -> bool {
    at.saturating_add(count) <= bytes.len() as u64
}
