//! The stages on names and constants, one behind the other.

use const_eval::{ConstError, Consts, evaluate};
use module_resolver::{Names, ResolveError, order};
use mojom_files::NamedFile;
use name_refusals::resolve;
use std::alloc::{AllocError, Global};

/// What the stages make of files, each where those before it refuse nothing.
#[derive(Drop)]
pub struct Stages {
    pub order: Option<Vec<u32>>,
    pub names: Option<Names>,
    pub consts: Option<Consts>,
}

/// Why a stage gives nothing.
#[derive(Clone, Copy)]
enum StageError {
    Refused,
    Memory,
}

impl From<ResolveError> for StageError {
    fn from(error: ResolveError) -> StageError {
        match error {
            ResolveError::Refused(_) => StageError::Refused,
            ResolveError::Memory => StageError::Memory,
        }
    }
}

impl From<ConstError> for StageError {
    fn from(error: ConstError) -> StageError {
        match error {
            ConstError::Refused(_) => StageError::Refused,
            ConstError::Memory => StageError::Memory,
        }
    }
}

impl Stages {
    /// What the stages make of files.
    pub fn run(alloc: Global, files: &[NamedFile]) -> Result<Stages, AllocError> {
        let mut stages = Stages {
            order: None,
            names: None,
            consts: None,
        };
        match stages.go(alloc, files) {
            Ok(()) | Err(StageError::Refused) => Ok(stages),
            Err(StageError::Memory) => Err(AllocError),
        }
    }

    /// Runs one stage behind the other.
    fn go(&mut self, alloc: Global, files: &[NamedFile]) -> Result<(), StageError> {
        if u32::try_from(files.len()).is_err() {
            return Err(StageError::Memory);
        }
        let order = self.order.insert(order(alloc, files)?);
        let order = order.as_slice();
        let names = self.names.insert(resolve(alloc, files, order)?);
        self.consts = Some(evaluate(alloc, files, order, names)?);
        Ok(())
    }
}
