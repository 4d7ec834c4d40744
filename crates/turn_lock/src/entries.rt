//! What a turn sees of its value.

ghost use Rattle.std.specs.Prelude.{◌≡◌, ℕ, List, length};

/// A value that keeps a list of entries, each of which names a pass by its number. Contracts see the list, the number that an entry
/// names, what of the value stays the same for ever (its basis), and which lists are lawful for a basis.
pub trait Entries {
    type Entry;

    type Basis;

    ghost entries: { Self → List Self.Entry };

    // The number of the pass that an entry names.
    ghost number: { Self.Entry → ℕ };

    ghost basis: { Self → Self.Basis };

    ghost lawful: { Self.Basis → List Self.Entry → Type 0 };

    /// How many entries there are. The list of every value is lawful for its basis.
    fn count(&self) -> u64
        ensures count { result ≡ length (entries self.now) }
        ensures lawful { lawful (basis self.now) (entries self.now) };
}
