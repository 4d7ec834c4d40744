//! The nodes of modules' names and of their fronts.

ghost use Rattle.std.specs.Prelude.{◌≡◌, IfOk, OnOk, map, Some};
ghost use Rattle.module_resolver.specs.NamesOf.{texts_from, fronts_of, module_fronts};
ghost use Rattle.module_resolver.specs.Seats.{node_of, AreNodes};
ghost use Rattle.module_resolver.specs.steps.Held.{IsSound, Entered};

use crate::fronts::reversed;
use crate::name_index::NameIndex;
use mj_base::Items;
use mojom_ast::{Identifier, ModuleStatement};
use mojom_files::NamedFile;
use std::alloc::{AllocError, Global};

/// Enters a name part after part, and gives the nodes of its fronts, the shortest first.
fn nodes_from(
    alloc: Global,
    index: &mut NameIndex,
    first: &Identifier,
    rest: &[Identifier],
) -> Result<Vec<u32>, AllocError>
    requires { IsSound index.old }
    ensures entered { OnOk result (Entered index.old index.new) }
    ensures are { IfOk result (λ nodes. AreNodes index.new (texts_from first.now.text rest.now) nodes.items) }
{
    let mut node = index.enter(alloc, 0, first.text.as_str())?;
    let mut nodes = Vec::new(alloc);
    for part in rest {
        nodes.push(node)?;
        node = index.enter(alloc, node, part.text.as_str())?;
    }
    nodes.push(node)?;
    Ok(nodes)
}

/// Enters a name part after part, and gives the nodes of its fronts, the longest first.
fn front_nodes(
    alloc: Global,
    index: &mut NameIndex,
    parts: &[Identifier],
) -> Result<Items<u32>, AllocError>
    requires { IsSound index.old }
    ensures entered { OnOk result (Entered index.old index.new) }
    ensures are { IfOk result (λ nodes. AreNodes index.new (fronts_of parts.now) nodes) }
{
    let [first, rest @ ..] = parts else {
        return Ok(Items::new(alloc));
    };
    let nodes = nodes_from(alloc, index, first, rest)?;
    Ok(Items::from_vec(reversed(nodes)))
}

/// Enters the name of a file's module, and gives the nodes of its fronts, the longest first.
fn module_nodes(
    alloc: Global,
    index: &mut NameIndex,
    statement: &Option<ModuleStatement>,
) -> Result<Items<u32>, AllocError>
    requires { IsSound index.old }
    ensures entered { OnOk result (Entered index.old index.new) }
    ensures are { IfOk result (λ nodes. AreNodes index.new (module_fronts statement.now) nodes) }
{
    match statement {
        Some(statement) => front_nodes(alloc, index, statement.name.parts.as_slice()),
        None => Ok(Items::new(alloc)),
    }
}

/// Enters the names of the modules of files, and gives for each the nodes of its fronts, the longest
/// first.
pub(crate) fn nodes_of(
    alloc: Global,
    index: &mut NameIndex,
    files: &[NamedFile],
) -> Result<Items<Items<u32>>, AllocError>
    requires { IsSound index.old }
    ensures entered { OnOk result (Entered index.old index.new) }
    ensures are { IfOk result (λ nodes. map (λ f. map (node_of index.new 0) (module_fronts f.tree.module_statement)) files.now
        ≡ map (λ ns. map (λ n. Some n) ns) nodes) }
{
    let mut nodes = Vec::new(alloc);
    for file in files {
        nodes.push(module_nodes(alloc, index, &file.tree.module_statement)?)?;
    }
    Ok(Items::from_vec(nodes))
}
