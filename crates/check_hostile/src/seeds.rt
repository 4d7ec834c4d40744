//! The seeds of a file. A line `over`, `mojom`, `message INTERFACE SIDE HANDLES`, `script`, `value INTERFACE METHOD SIDE` or
//! `history` begins one, and its bytes follow: `| TEXT` is a line, `> TEXT` one without a line feed, and `x DIGITS` bytes in
//! hexadecimal. `over` is a Mojom file that the messages, scripts, values and histories behind it are over; no inputs are made of it.

use check_messages::push_hexadecimal;
use mj_base::{Items, Text};
use mj_schema::Schema;
use mojom_compile::{Source, compile};
use std::alloc::{AllocError, Global};
use std::sync::Arc;

/// What a seed is.
#[derive(Clone, Copy, PartialEq, Eq)]
pub enum InputSort {
    /// A Mojom file that those behind it are over.
    Over,
    Mojom,
    Message,
    Script,
    Value,
    History,
}

impl InputSort {
    /// The word for so many.
    pub fn word(self) -> &'static str {
        match self {
            InputSort::Over | InputSort::Mojom => "Mojom files",
            InputSort::Message => "messages",
            InputSort::Script => "scripts",
            InputSort::Value => "values",
            InputSort::History => "histories",
        }
    }

    /// The sort of a keyword; none where that begins no seed.
    fn named(word: &str) -> Option<InputSort> {
        match word {
            "over" => Some(InputSort::Over),
            "mojom" => Some(InputSort::Mojom),
            "message" => Some(InputSort::Message),
            "script" => Some(InputSort::Script),
            "value" => Some(InputSort::Value),
            "history" => Some(InputSort::History),
            _ => None,
        }
    }
}

/// A seed: the words behind its keyword, how many Mojom files that others are over stand up to it, and its bytes.
#[derive(Drop)]
pub struct Seed {
    pub sort: InputSort,
    pub words: String,
    pub over: usize,
    pub bytes: Vec<u8>,
}

/// The seeds that were read so far.
#[derive(Drop)]
pub struct Seeds {
    items: Vec<Seed>,
    over: usize,
}

impl Seeds {
    /// None.
    pub fn new(alloc: Global) -> Seeds {
        Seeds {
            items: Vec::new(alloc),
            over: 0,
        }
    }

    /// The seeds, in the order in which they were read.
    pub fn into_items(self) -> Vec<Seed> {
        let Seeds { items, over: _ } = self;
        items
    }

    /// Takes a line; whether it has a form.
    pub fn take(&mut self, alloc: Global, line: &str) -> Result<bool, AllocError> {
        let (word, rest) = line.split_once(' ').unwrap_or((line, ""));
        if let Some(sort) = InputSort::named(word) {
            self.begin(alloc, sort, rest)?;
            return Ok(true);
        }
        match word {
            "|" => self.add_text(rest, "\n"),
            ">" => self.add_text(rest, ""),
            "x" => self.add_hexadecimal(rest),
            _ => Ok(line.is_empty() || line.starts_with("#")),
        }
    }

    /// Begins a seed.
    fn begin(&mut self, alloc: Global, sort: InputSort, words: &str) -> Result<(), AllocError> {
        if sort == InputSort::Over {
            self.over = self.over.saturating_add(1);
        }
        let seed = Seed {
            sort,
            words: String::from_str(alloc, words)?,
            over: self.over,
            bytes: Vec::new(alloc),
        };
        Ok(self.items.push(seed)?)
    }

    /// Adds a text and what ends it to the last seed; whether there is one.
    fn add_text(&mut self, text: &str, end: &str) -> Result<bool, AllocError> {
        let Some(seed) = self.items.last_mut() else {
            return Ok(false);
        };
        seed.bytes.extend_from_slice(text.as_bytes())?;
        seed.bytes.extend_from_slice(end.as_bytes())?;
        Ok(true)
    }

    /// Adds the bytes that digits spell to the last seed; whether there is one.
    fn add_hexadecimal(&mut self, digits: &str) -> Result<bool, AllocError> {
        let Some(seed) = self.items.last_mut() else {
            return Ok(false);
        };
        push_hexadecimal(digits, &mut seed.bytes)?;
        Ok(true)
    }
}

/// Bytes as a Mojom file.
pub fn source_of(alloc: Global, bytes: &[u8]) -> Result<Source, AllocError> {
    Ok(Source {
        name: Text::from_str(alloc, "t.mojom")?,
        bytes: Items::from_vec(Vec::from_slice(alloc, bytes)?),
    })
}

/// The schemas of the Mojom files that others are over, in order; none where one of these files is refused.
pub fn schemas_of(alloc: Global, seeds: &[Seed]) -> Result<Option<Vec<Arc<Schema>>>, AllocError> {
    let mut schemas = Vec::new(alloc);
    for seed in seeds {
        if seed.sort == InputSort::Over {
            let source = source_of(alloc, seed.bytes.as_slice())?;
            let Some(schema) = compile(alloc, &[source]).ok() else {
                return Ok(None);
            };
            match Arc::new(alloc, schema) {
                Ok(shared) => schemas.push(shared)?,
                Err(_) => return Err(AllocError),
            }
        }
    }
    Ok(Some(schemas))
}
