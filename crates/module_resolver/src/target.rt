//! What a name means.

/// What a definition is.
#[derive(Clone, Copy)]
pub enum DefinitionSort {
    Struct,
    Union,
    Enum,
    Interface,
    Const,
}

/// What a name means: a definition or an enumerator, by the number of its file among those given and
/// by its number among the definitions, or the enumerators, of that file.
#[derive(Clone, Copy, PartialEq, Eq)]
pub enum Target {
    Definition { file: u32, number: usize },
    Enumerator { file: u32, number: usize },
}
