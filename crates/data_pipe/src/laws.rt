//! What every data pipe keeps. The law is proved of all calls at once, so its function does nothing.

ghost use Rattle.std.specs.Prelude.{ℕ, ◌≡◌, ◌≤◌, ◌++◌, List, length};
ghost use Rattle.data_pipe.specs.Calls.{Call, played, read, written};

/// Whatever is called: what was read is the beginning of what was written; the rest is held, and is never
/// more than the data pipe may hold.
pub fn in_order()
    ensures { (capacity : ℕ) (calls : List Call)
        → (written capacity calls ≡ read capacity calls ++ (played capacity calls).held) × (length (played capacity calls).held ≤ capacity) }
{}
