//! Lists of things that are mostly empty.

ghost use Rattle.std.specs.Prelude.{◌≡◌, length, IfOk};
ghost use Rattle.kept_values.specs.KeptTrees.{few_of};

use crate::boxed::Boxed;
use handle_table::Thing;
use mj_base::Items;
use std::alloc::{AllocError, Global};
use std::marker::Model;

/// A list of things that lies apart where there are any, and takes nothing else where there are none. Contracts see
/// the things.
#[derive(Drop)]
pub struct FewThings {
    things: Option<Boxed<Items<Thing>>>,
}

impl Model for FewThings {
    ghost use Rattle.std.specs.Prelude.{List};
    ghost use Rattle.handle_table.specs.declared.thing.Thing.{Thing};
    ghost use Rattle.kept_values.specs.KeptTrees.{few_of};

    ghost Value = { List Thing };

    ghost view = { λ few. few_of few.things };
}

impl FewThings {
    /// These things.
    pub fn of(alloc: Global, things: Items<Thing>) -> Result<FewThings, AllocError>
        ensures { IfOk result (λ few. few ≡ things) }
    {
        if things.as_slice().is_empty() {
            return Ok(FewThings { things: None });
        }
        let apart = Boxed::new(alloc, things)?;
        Ok(FewThings {
            things: Some(apart),
        })
    }

    /// The things, in order.
    pub fn as_slice(&self) -> &[Thing]
        ensures { result.now ≡ self.now }
    {
        things_of(&self.things)
    }

    /// How many there are.
    pub fn len(&self) -> usize
        ensures { result ≡ length self.now }
    {
        self.as_slice().len()
    }
}

/// The things of a list, in order: none where there is no list.
fn things_of(things: &Option<Boxed<Items<Thing>>>) -> &[Thing]
    ensures { result.now ≡ few_of things.now }
{
    match things {
        Some(apart) => apart.get().as_slice(),
        None => &[],
    }
}
