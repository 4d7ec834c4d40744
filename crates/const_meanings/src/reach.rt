//! Where many steps lead: what a thing needs, what that needs, and so on.

ghost use Rattle.std.specs.Prelude.{◌≡◌, ◌<◌, ◌≤◌, ◌^◌, IfOk, map, length};
ghost use Rattle.std.specs.List.{All};
ghost use Rattle.const_meanings.specs.declared.reach.Reach.{Reach};
ghost use Rattle.const_meanings.specs.steps.Reached.{AreFar, step, beyond};

use crate::origin::Origin;
use std::alloc::{AllocError, Global};

/// Where some steps lead, and how many of them count on.
#[derive(Clone, Copy)]
pub struct Reach {
    pub thing: usize,
    pub added: u64,
}

/// Where one step leads.
fn one_step(number: usize, origin: &Origin) -> Reach
    ensures { result ≡ step number origin.now }
{
    match origin {
        Origin::Written(_) | Origin::Missing => Reach {
            thing: number,
            added: 0,
        },
        Origin::Of(other) => Reach {
            thing: *other,
            added: 0,
        },
        Origin::Next => Reach {
            thing: number.saturating_sub(1),
            added: 1,
        },
    }
}

/// Where one step leads from each thing.
fn first_steps(alloc: Global, things: &[Origin]) -> Result<Vec<Reach>, AllocError>
    ensures { IfOk result (λ reaches. AreFar things.now 1 reaches.items) }
{
    let mut reaches = Vec::new(alloc);
    for (number, origin) in things.iter().enumerate() {
        reaches.push(one_step(number, origin))?;
    }
    Ok(reaches)
}

/// Where as many steps again lead.
fn beyond(reaches: &[Reach], one: Reach) -> Reach
    requires one { one.added ≤ 2 ^ 62 }
    requires others { All (λ (r : Reach). r.added ≤ 2 ^ 62) reaches.now }
    ensures { result ≡ beyond reaches.now one }
{
    match reaches.get(one.thing) {
        Some(other) => Reach {
            thing: other.thing,
            added: one.added + other.added,
        },
        None => one,
    }
}

/// Where twice as many steps lead.
fn doubled(alloc: Global, reaches: &[Reach]) -> Result<Vec<Reach>, AllocError>
    requires { All (λ (r : Reach). r.added ≤ 2 ^ 62) reaches.now }
    ensures { IfOk result (λ further. further.items ≡ map (beyond reaches.now) reaches.now) }
{
    let mut further = Vec::new(alloc);
    for one in reaches {
        further.push(beyond(reaches, *one))?;
    }
    Ok(further)
}

/// Where 2^32 steps lead from each thing.
pub fn far(alloc: Global, things: &[Origin]) -> Result<Vec<Reach>, AllocError>
    ensures { IfOk result (λ reaches. AreFar things.now (2 ^ 32) reaches.items) }
{
    let mut reaches = first_steps(alloc, things)?;
    for _round in 0..32u32 {
        reaches = doubled(alloc, reaches.as_slice())?;
    }
    Ok(reaches)
}
