//! Rows of two schemas that stand opposite each other.

/// A row of the older schema and a row of the newer one, by their numbers.
#[derive(Clone, Copy)]
pub enum Pair {
    Structs(u32, u32),
    Unions(u32, u32),
    Enums(u32, u32),
    Interfaces(u32, u32),
}
