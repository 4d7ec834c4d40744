//! The walks of a file. A line `walk NAME` begins one; `file TEXT` has its definitions, `first LINE` a line
//! with which each of its scripts begins, `line LINE` one that may stand behind these at any place and any
//! number of times, and `most N` says how many of those a script has at most. Each script is run in as many
//! orders of its sequences' lines, from 0 on, as `orders N` says; without it in the order 0 alone. Where each
//! sequence has a thread, it is run as often as `threads N` says.

use mj_base::{Items, Text};
use mj_schema::Schema;
use mojom_compile::{Source, compile};
use std::alloc::{AllocError, Global};

/// A walk, as a file has it.
#[derive(Drop)]
pub struct Walk {
    pub name: String,
    definitions: String,
    first: String,
    lines: Vec<String>,
    pub most: u32,
    pub orders: u64,
    pub threads: u64,
}

impl Walk {
    /// A walk of which no more than the name was read.
    fn new(alloc: Global, name: &str) -> Result<Walk, AllocError> {
        Ok(Walk {
            name: String::from_str(alloc, name)?,
            definitions: String::new(alloc),
            first: String::new(alloc),
            lines: Vec::new(alloc),
            most: 0,
            orders: 1,
            threads: 0,
        })
    }

    /// Takes one of its lines.
    fn take(&mut self, alloc: Global, line: &str) -> Result<(), AllocError> {
        if let Some(text) = line.strip_prefix("file ") {
            push_line(&mut self.definitions, text)
        } else if let Some(text) = line.strip_prefix("first ") {
            push_line(&mut self.first, text)
        } else if let Some(text) = line.strip_prefix("line ") {
            Ok(self.lines.push(String::from_str(alloc, text)?)?)
        } else {
            self.take_number(line);
            Ok(())
        }
    }

    /// Takes a line with a number.
    fn take_number(&mut self, line: &str) {
        if let Some(orders) = line.strip_prefix("orders ") {
            self.orders = orders.parse::<u64>().unwrap_or(0);
        } else if let Some(threads) = line.strip_prefix("threads ") {
            self.threads = threads.parse::<u64>().unwrap_or(0);
        } else {
            let most = line.strip_prefix("most ").unwrap_or("");
            self.most = most.parse::<u32>().unwrap_or(0);
        }
    }

    /// The file of its definitions.
    pub fn source(&self, alloc: Global) -> Result<Source, AllocError> {
        Ok(Source {
            name: Text::from_str(alloc, "t.mojom")?,
            bytes: Items::from_vec(Vec::from_slice(alloc, self.definitions.as_bytes())?),
        })
    }

    /// The schema of its definitions; none where they are refused.
    pub fn schema(&self, alloc: Global) -> Result<Option<Schema>, AllocError> {
        let source = self.source(alloc)?;
        Ok(compile(alloc, &[source]).ok())
    }

    /// How many texts there are with so many lines behind the first ones.
    pub fn count(&self, lines: u32) -> usize {
        let mut count: usize = 1;
        for _ in 0..lines {
            count = count.saturating_mul(self.lines.len());
        }
        count
    }

    /// The text of this number among those: its lines are the digits of the number.
    pub fn text(&self, alloc: Global, lines: u32, number: usize) -> Result<String, AllocError> {
        let mut text = String::from_str(alloc, self.first.as_str())?;
        let mut rest = number;
        for _ in 0..lines {
            let digit = rest.checked_rem(self.lines.len()).unwrap_or(0);
            rest = rest.checked_div(self.lines.len()).unwrap_or(0);
            if let Some(line) = self.lines.get(digit) {
                push_line(&mut text, line.as_str())?;
            }
        }
        Ok(text)
    }
}

/// Adds a line.
pub fn push_line(text: &mut String, line: &str) -> Result<(), AllocError> {
    text.push_str(line)?;
    text.push_str("\n")
}

/// The walks of a text.
pub fn walks(alloc: Global, text: &str) -> Result<Vec<Walk>, AllocError> {
    let mut walks = Vec::new(alloc);
    for line in text.lines() {
        if line.is_empty() || line.starts_with("#") {
            continue;
        }
        if let Some(name) = line.strip_prefix("walk ") {
            walks.push(Walk::new(alloc, name)?)?;
        } else if let Some(walk) = walks.last_mut() {
            Walk::take(walk, alloc, line)?;
        }
    }
    Ok(walks)
}
