//! What an end waits for.

ghost use Rattle.std.specs.Prelude.{◌≡◌, ◌++◌, [], ◌∷◌, drop, OnOk, OnErr};

use mj_base::EndId;
use std::alloc::{AllocError, Global};
use std::marker::Model;

/// A wait until an end has consumed the flush of this number, or is gone.
#[derive(Clone, Copy)]
pub struct Wait {
    pub end: EndId,
    pub flush: u32,
}

/// What an end waits for, in the order in which it was told to, but for the first so many, which were met. Contracts
/// see a list.
#[derive(Drop)]
pub struct Waits {
    items: Vec<Wait>,
    forgotten: usize,
}

impl Model for Waits {
    ghost use Rattle.std.specs.Prelude.{List, ◌≤◌, drop, length};
    ghost use Rattle.end_notices.specs.declared.waits.Wait.{Wait};

    ghost Value = { List Wait };

    ghost view = { λ waits. drop waits.forgotten waits.items.items };

    ghost invariant = { λ waits. waits.forgotten ≤ length waits.items.items };
}

impl Waits {
    /// Nothing. Takes no memory.
    pub(crate) fn new(alloc: Global) -> Waits
        ensures { result ≡ [] }
    {
        Waits {
            items: Vec::new(alloc),
            forgotten: 0,
        }
    }

    /// All, in order.
    pub(crate) fn as_slice(&self) -> &[Wait]
        ensures { result.now ≡ self.now }
    {
        &self.items.as_slice()[self.forgotten..]
    }

    /// Adds one behind the others. Without memory nothing changes.
    pub(crate) fn push(&mut self, wait: Wait) -> Result<(), AllocError>
        ensures ok { OnOk result (self.new ≡ self.old ++ wait ∷ []) }
        ensures err { OnErr result (self.new ≡ self.old) }
    {
        self.items.push(wait)?;
        Ok(())
    }

    /// Forgets the first, where there is one.
    #[tactic(auto, using(crate::proofs::Forgetting::one_less, crate::proofs::Forgetting::none_left))]
    pub(crate) fn forget(&mut self)
        ensures { self.new ≡ drop 1 self.old }
    {
        if self.items.len() <= self.forgotten {
            return;
        }
        self.forgotten += 1;
    }
}
