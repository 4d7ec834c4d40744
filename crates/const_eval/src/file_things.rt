//! The things of a file by their numbers.

ghost use Rattle.std.specs.Prelude.{◌≡◌};
ghost use Rattle.const_eval.specs.Things.{thing_within, thing_of, owner_of};

use mj_base::Items;
use module_resolver::Target;

/// Where the things of a file stand among those of all files: first its definitions, then the
/// enumerators of its enums.
#[derive(Drop)]
pub struct FileThings {
    /// The thing of its first definition.
    pub definitions: usize,
    /// The thing of its first enumerator: the one behind its last definition.
    pub enumerators: usize,
    /// The one behind its last enumerator.
    pub end: usize,
    /// For each enumerator of the file, the number of its enum among the file's definitions.
    pub owners: Items<usize>,
}

/// The thing of this number in a row of things; none past its end.
fn thing_within(first: usize, end: usize, number: usize) -> Option<usize>
    ensures { result ≡ thing_within first end number }
{
    match first.checked_add(number) {
        Some(thing) if thing < end => Some(thing),
        _ => None,
    }
}

/// The thing that a name means.
pub fn thing_of(files: &[FileThings], target: Target) -> Option<usize>
    ensures { result ≡ thing_of files.now target }
{
    match target {
        Target::Definition { file, number } => {
            let things = files.get(file as usize)?;
            thing_within(things.definitions, things.enumerators, number)
        }
        Target::Enumerator { file, number } => {
            let things = files.get(file as usize)?;
            thing_within(things.enumerators, things.end, number)
        }
    }
}

/// The number of the enum of an enumerator, among the definitions of its file.
pub fn owner_of(files: &[FileThings], file: u32, enumerator: usize) -> Option<usize>
    ensures { result ≡ owner_of files.now file enumerator }
{
    let things = files.get(file as usize)?;
    things.owners.as_slice().get(enumerator).copied()
}
