//! The comparison of one set of files.

use crate::literal;
use crate::stages::Stages;
use kinds_reference::{Answer, answer_of};
use mj_base::Text;
use mojom_compile::{CompileError, Source, read};
use mojom_files::NamedFile;
use names_reference::Word;
use std::alloc::{AllocError, Global};

/// What came of a set of files: the word of its refusal, where it is refused; its answer, `listed` where it has a
/// listing; and how the stages differ from the literal reading, where they do.
#[derive(Drop)]
pub struct Outcome {
    pub word: Option<Word>,
    pub answer: String,
    pub difference: Option<String>,
}

/// The trees of files; none where a file has none.
fn trees(alloc: Global, sources: &[Source]) -> Result<Option<Vec<NamedFile>>, AllocError> {
    let mut files = Vec::new(alloc);
    for source in sources {
        let tree = match read(alloc, source.bytes.as_slice()) {
            Ok(tree) => tree,
            Err(CompileError::Refused(_)) => return Ok(None),
            Err(CompileError::Memory) => return Err(AllocError),
        };
        let name = Text::from_str(alloc, source.name.as_str())?;
        files.push(NamedFile { name, tree })?;
    }
    Ok(Some(files))
}

/// How the stages differ from the literal reading, whose answer is given.
fn difference(
    alloc: Global,
    sources: &[Source],
    files: &[NamedFile],
    literal: &str,
) -> Result<Option<String>, AllocError> {
    let compiled = crate::answer::text(alloc, files, sources)?;
    if compiled.as_str() != literal {
        let compiled = compiled.as_str();
        let text = format!(in alloc; "compiled:\n{compiled}\nread literally:\n{literal}")?;
        return Ok(Some(text));
    }
    let stages = Stages::run(alloc, files)?;
    literal::difference(alloc, files, &stages)
}

/// Compares what the stages and the literal reading make of files.
pub fn compare(alloc: Global, sources: &[Source]) -> Result<Outcome, AllocError> {
    let Some(files) = trees(alloc, sources)? else {
        return Ok(Outcome {
            word: None,
            answer: String::from_str(alloc, "no tree")?,
            difference: Some(String::from_str(alloc, "a file has no tree")?),
        });
    };
    let files = files.as_slice();
    match answer_of(alloc, files)? {
        Answer::Refused(word, text) => {
            let difference = difference(alloc, sources, files, text.as_str())?;
            Ok(Outcome {
                word: Some(word),
                answer: text,
                difference,
            })
        }
        Answer::Listed { listing, defaults } => {
            let mut text = listing;
            text.push_str(defaults.as_str())?;
            let difference = difference(alloc, sources, files, text.as_str())?;
            Ok(Outcome {
                word: None,
                answer: String::from_str(alloc, "listed")?,
                difference,
            })
        }
    }
}
