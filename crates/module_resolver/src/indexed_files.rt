//! The names of all files, and what has each of them.

use crate::file_names::FileNames;
use crate::find::node_around;
use crate::index::index_of;
use crate::module_nodes::nodes_of;
use crate::name_index::NameIndex;
use crate::seat::Seat;
use mj_base::{Items, Text};
use mojom_files::NamedFile;
use std::alloc::{AllocError, Global};
use std::marker::Model;

/// The names of all files, in the order in which these were given. Contracts see them alone; beside
/// them is kept what has each full name in any file, how many dots full names have, and for each file the
/// nodes of the fronts of its module.
#[derive(Drop)]
pub struct IndexedFiles {
    files: Items<FileNames>,
    index: NameIndex,
    dots: Vec<usize>,
    nodes: Items<Items<u32>>,
}

impl Model for IndexedFiles {
    ghost use Rattle.std.specs.Prelude.{List};
    ghost use Rattle.module_resolver.specs.declared.file_names.FileNames.{FileNames};

    ghost Value = { List FileNames };

    ghost use Rattle.module_resolver.specs.steps.Held.{IsIndex};

    ghost view = { λ f. f.files };

    ghost invariant = { λ f. IsIndex f.files f.index f.dots.items f.nodes };
}

impl IndexedFiles {
    ghost use Rattle.std.specs.Prelude.{◌≡◌, IfOk, IfSome, is_some, map, slice_get};
    ghost use Rattle.module_resolver.specs.NamesOf.{names_in};
    ghost use Rattle.module_resolver.specs.Seats.{IsSeat};

    /// The names of these files, where this is their resolved order.
    pub(crate) fn new(
        alloc: Global,
        files: &[NamedFile],
        names: Items<FileNames>,
        order: &[u32],
    ) -> Result<IndexedFiles, AllocError>
        requires { names ≡ map (names_in files.now order.now) files.now }
        ensures { IfOk result (λ made. made ≡ names) }
    {
        let mut index = index_of(alloc, names.as_slice(), order)?;
        let dots = index.dots(alloc)?;
        let nodes = nodes_of(alloc, &mut index, files)?;
        Ok(IndexedFiles {
            files: names,
            index,
            dots,
            nodes,
        })
    }

    /// The names of each file.
    pub fn as_slice(&self) -> &[FileNames]
        ensures { result.now ≡ self.now }
    {
        self.files.as_slice()
    }

    /// What look-ups need in the file of this number, within the definition of this full name, which is
    /// walked through for it; none exactly where there is no such file.
    pub(crate) fn seat<'a>(&'a self, file: u32, enclosing: &Option<Text>) -> Option<Seat<'a>>
        ensures there { is_some result ≡ is_some (slice_get self.now file) }
        ensures is { IfSome result (IsSeat self.now file enclosing.now) }
    {
        let here = self.files.as_slice().get(file as usize)?;
        let nodes = self.nodes.as_slice().get(file as usize)?;
        let index = &self.index;
        let dots = self.dots.as_slice();
        let front_nodes = nodes.as_slice();
        let node = node_around(index, &here.fronts, front_nodes, enclosing);
        Some(Seat {
            index,
            dots,
            nodes: front_nodes,
            here,
            node,
        })
    }
}
