//! The cases of a file. A line `message NAME` begins one; `file TEXT` has its definitions, `of INTERFACE
//! SIDE HANDLES` says what it is, and all other lines have its bytes in hexadecimal, with blanks.

use mj_base::{Items, Text};
use mj_schema::Schema;
use mojom_compile::{Source, compile};
use std::alloc::{AllocError, Global};
use wire_model::{Expected, MessageSide};

/// A message, as a file has it.
#[derive(Drop)]
pub struct Case {
    pub name: String,
    definitions: String,
    interface: String,
    side: MessageSide,
    pub handles: u32,
    pub bytes: Vec<u8>,
}

impl Case {
    /// A case of which no more than the name was read.
    pub fn new(alloc: Global, name: &str) -> Result<Case, AllocError> {
        Ok(Case {
            name: String::from_str(alloc, name)?,
            definitions: String::new(alloc),
            interface: String::new(alloc),
            side: MessageSide::Request,
            handles: 0,
            bytes: Vec::new(alloc),
        })
    }

    /// Takes one of its lines.
    pub fn take(&mut self, line: &str) -> Result<(), AllocError> {
        if let Some(text) = line.strip_prefix("file ") {
            self.definitions.push_str(text)?;
            self.definitions.push_str("\n")?;
            Ok(())
        } else if let Some(words) = line.strip_prefix("of ") {
            self.take_kind(words)
        } else {
            push_hexadecimal(line, &mut self.bytes)
        }
    }

    /// Takes its interface, its side and its number of handles.
    fn take_kind(&mut self, words: &str) -> Result<(), AllocError> {
        let mut words = words.split_ascii_whitespace();
        self.interface.push_str(words.next().unwrap_or(""))?;
        if words.next() == Some("response") {
            self.side = MessageSide::Response;
        }
        let handles = words.next().unwrap_or("");
        self.handles = handles.parse::<u32>().unwrap_or(0);
        Ok(())
    }

    /// The schema of its definitions; none where they are refused.
    pub fn schema(&self, alloc: Global) -> Result<Option<Schema>, AllocError> {
        let mut bytes = Vec::new(alloc);
        bytes.extend_from_slice(self.definitions.as_bytes())?;
        let mut sources = Vec::new(alloc);
        sources.push(Source {
            name: Text::from_str(alloc, "a.mojom")?,
            bytes: Items::from_vec(bytes),
        })?;
        Ok(compile(alloc, sources.as_slice()).ok())
    }

    /// What the message is expected to be; none where there is no such interface.
    pub fn expected(&self, schema: &Schema) -> Option<Expected> {
        let interface = schema.find_interface(self.interface.as_str())?;
        Some(Expected {
            interface,
            side: self.side,
        })
    }
}

/// Adds the bytes that digits spell; what is no digit parts nothing.
pub fn push_hexadecimal(line: &str, bytes: &mut Vec<u8>) -> Result<(), AllocError> {
    let mut half = None;
    for letter in line.chars() {
        if let Some(digit) = letter.to_digit(16) {
            match half {
                None => half = Some(digit),
                Some(first) => {
                    bytes.push((first.wrapping_mul(16).wrapping_add(digit) % 256) as u8)?;
                    half = None;
                }
            }
        }
    }
    Ok(())
}

/// The cases of a text.
pub fn cases(alloc: Global, text: &str) -> Result<Vec<Case>, AllocError> {
    let mut cases = Vec::new(alloc);
    for line in text.lines() {
        if line.is_empty() || line.starts_with("#") {
            continue;
        }
        if let Some(name) = line.strip_prefix("message ") {
            cases.push(Case::new(alloc, name)?)?;
        } else if let Some(case) = cases.last_mut() {
            Case::take(case, line)?;
        }
    }
    Ok(cases)
}
