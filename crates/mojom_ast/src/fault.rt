//! Where tokens stop being what a rule says.

/// Why a rule goes on no further, by how many tokens are left there.
#[derive(Clone, Copy)]
pub enum Fault {
    /// No beginning goes on with the next token, or there is none.
    Unexpected(usize),
    /// The next token begins a type that stands inside too many others.
    TooNested(usize),
}
