//! The names of a line, by what it has them for.

ghost use Rattle.std.specs.Prelude.{◌≡◌, IfOk, is_some};
ghost use Rattle.call_script.specs.Sound.{sets};
ghost use Rattle.script_names.specs.Needs.{chosen, needed, selected, handles_needed, pendings_needed, AreNames, AreNone};
ghost use Rattle.script_names.specs.Held.{held_at};

use crate::stands::Stands;
use call_script::{Command as Asked, NameId};
use std::alloc::{AllocError, Global};

/// The names that a line sets; the one whose handle, pending or responder it needs by itself; and, of its
/// list, those whose handles and those whose pendings it needs.
#[derive(Drop)]
pub struct Names {
    pub sets: Vec<NameId>,
    pub one: Option<NameId>,
    pub handles: Vec<NameId>,
    pub pendings: Vec<NameId>,
}

/// The names that a line sets, in the order in which they get what comes.
fn sets(alloc: Global, line: &Asked) -> Result<Vec<NameId>, AllocError>
    ensures { IfOk result (λ names. names.items ≡ sets line.now) }
{
    match line {
        Asked::Join(_, first, second)
        | Asked::Pipe(first, second)
        | Asked::Data(_, first, second) => Vec::from_slice(alloc, &[*first, *second]),
        Asked::Mint(_, name) | Asked::Associate(_, _, _, name) => Vec::from_slice(alloc, &[*name]),
        Asked::Take(_, names) => Vec::from_slice(alloc, names.as_slice()),
        Asked::Bind(_, _, _)
        | Asked::Attach(_, _)
        | Asked::Call(_, _, _, _, _)
        | Asked::Answer(_, _, _, _)
        | Asked::Raw(_, _, _)
        | Asked::CloseToken(_)
        | Asked::CloseEndpoint(_, _)
        | Asked::Notify(_, _)
        | Asked::Pause(_, _, _)
        | Asked::Flow(_, _) => Ok(Vec::new(alloc)),
    }
}

/// The name whose handle, pending or responder a line needs by itself.
fn needed(line: &Asked) -> Option<NameId>
    ensures { result ≡ needed line.now }
{
    match line {
        Asked::Bind(name, _, _)
        | Asked::Attach(name, _)
        | Asked::Answer(name, _, _, _)
        | Asked::Raw(name, _, _)
        | Asked::CloseToken(name)
        | Asked::Flow(name, _) => Some(*name),
        Asked::Join(_, _, _)
        | Asked::Pipe(_, _)
        | Asked::Mint(_, _)
        | Asked::Associate(_, _, _, _)
        | Asked::Call(_, _, _, _, _)
        | Asked::Take(_, _)
        | Asked::CloseEndpoint(_, _)
        | Asked::Notify(_, _)
        | Asked::Pause(_, _, _)
        | Asked::Data(_, _, _) => None,
    }
}

/// Whether a name stands for an end or a token, or whether it doesn't.
fn is_selected(stands: &Stands, name: NameId, stand: bool) -> bool
    ensures { result ≡ chosen (λ n. is_some (held_at stands.now.things.items n)) stand name }
{
    if stand {
        stands.is_thing(name)
    } else {
        !stands.is_thing(name)
    }
}

/// Of some names, in order, those that stand for ends and tokens, or those that don't.
fn select(
    alloc: Global,
    stands: &Stands,
    names: &[NameId],
    stand: bool,
) -> Result<Vec<NameId>, AllocError>
    ensures { IfOk result (λ all. all.items ≡ selected (λ n. is_some (held_at stands.now.things.items n)) stand names.now) }
{
    let mut selected = Vec::new(alloc);
    for name in names {
        if is_selected(stands, *name, stand) {
            selected.push(*name)?;
        }
    }
    Ok(selected)
}

/// Those of a line's list whose handles it needs: of a call's and an answer's those that stand for ends and
/// tokens, of what is written raw all.
fn handles(alloc: Global, stands: &Stands, line: &Asked) -> Result<Vec<NameId>, AllocError>
    ensures { IfOk result (λ all. all.items ≡ handles_needed (λ n. is_some (held_at stands.now.things.items n)) line.now) }
{
    match line {
        Asked::Call(_, _, _, names, _) | Asked::Answer(_, _, names, _) => {
            select(alloc, stands, names.as_slice(), true)
        }
        Asked::Raw(_, _, names) => Vec::from_slice(alloc, names.as_slice()),
        _ => Ok(Vec::new(alloc)),
    }
}

/// Those of a line's list whose pendings it needs.
fn pendings(alloc: Global, stands: &Stands, line: &Asked) -> Result<Vec<NameId>, AllocError>
    ensures { IfOk result (λ all. all.items ≡ pendings_needed (λ n. is_some (held_at stands.now.things.items n)) line.now) }
{
    match line {
        Asked::Call(_, _, _, names, _) | Asked::Answer(_, _, names, _) => {
            select(alloc, stands, names.as_slice(), false)
        }
        _ => Ok(Vec::new(alloc)),
    }
}

impl Names {
    /// The names of a line, where its sequence has names that stand for this.
    pub fn of(alloc: Global, stands: &Stands, line: &Asked) -> Result<Names, AllocError>
        ensures { IfOk result (AreNames (λ n. is_some (held_at stands.now.things.items n)) line.now) }
    {
        Ok(Names {
            sets: sets(alloc, line)?,
            one: needed(line),
            handles: handles(alloc, stands, line)?,
            pendings: pendings(alloc, stands, line)?,
        })
    }

    /// No names. Takes no memory.
    pub fn none(alloc: Global) -> Names
        ensures { AreNone result }
    {
        Names {
            sets: Vec::new(alloc),
            one: None,
            handles: Vec::new(alloc),
            pendings: Vec::new(alloc),
        }
    }
}
