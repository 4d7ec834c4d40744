//! The changes of a text by one word, or one line.

use check_runs::walk::push_line;
use std::alloc::{AllocError, Global};

/// Words that a history of any script may have, which are put in place of others beside the text's own.
const WORDS: &str = "0 1 99 4294967296 done - 00ff";

/// The lines of a text, and the words that are put in place of others, each once.
#[derive(Drop)]
pub struct Page {
    lines: Vec<String>,
    words: Vec<String>,
}

/// Adds the words of a line that aren't among these.
fn add_words(alloc: Global, line: &str, words: &mut Vec<String>) -> Result<(), AllocError> {
    for word in line.split(' ') {
        if !words.iter().any(|other| other.as_str() == word) {
            words.push(String::from_str(alloc, word)?)?;
        }
    }
    Ok(())
}

/// Adds a word to a line, behind a blank where it isn't the first; none where it is empty.
fn push_word(line: &mut String, word: &str) -> Result<(), AllocError> {
    if word.is_empty() {
        return Ok(());
    }
    if !line.as_str().is_empty() {
        line.push_str(" ")?;
    }
    line.push_str(word)
}

/// A line where the word of a number is another, or isn't there where that is empty.
fn line_with(alloc: Global, line: &str, number: usize, other: &str) -> Result<String, AllocError> {
    let mut made = String::new(alloc);
    for (place, word) in line.split(' ').enumerate() {
        if place == number {
            push_word(&mut made, other)?;
        } else {
            push_word(&mut made, word)?;
        }
    }
    Ok(made)
}

impl Page {
    /// The lines of a text and its words.
    pub fn new(alloc: Global, text: &str) -> Result<Page, AllocError> {
        let mut lines = Vec::new(alloc);
        let mut words = Vec::new(alloc);
        for line in text.lines() {
            add_words(alloc, line, &mut words)?;
            lines.push(String::from_str(alloc, line)?)?;
        }
        add_words(alloc, WORDS, &mut words)?;
        Ok(Page { lines, words })
    }

    /// How many lines there are.
    pub fn count_lines(&self) -> usize {
        self.lines.len()
    }

    /// The line at a place; an empty one behind the last.
    fn line(&self, at: usize) -> &str {
        match self.lines.get(at) {
            Some(line) => line.as_str(),
            None => "",
        }
    }

    /// The text where the line at a place is another, or isn't there.
    fn text_with(
        &self,
        alloc: Global,
        at: usize,
        other: Option<&str>,
    ) -> Result<String, AllocError> {
        let mut text = String::new(alloc);
        for (place, line) in self.lines.iter().enumerate() {
            if place != at {
                push_line(&mut text, line.as_str())?;
            } else if let Some(other) = other {
                push_line(&mut text, other)?;
            }
        }
        Ok(text)
    }

    /// The text where the line at a place stands behind the next one.
    fn swapped(&self, alloc: Global, at: usize) -> Result<String, AllocError> {
        let next = at.saturating_add(1);
        let mut text = String::new(alloc);
        for place in 0..self.lines.len() {
            if place == at {
                push_line(&mut text, self.line(next))?;
            } else if place == next {
                push_line(&mut text, self.line(at))?;
            } else {
                push_line(&mut text, self.line(place))?;
            }
        }
        Ok(text)
    }

    /// Adds the text where the word of a number in the line at a place is another, or isn't there where that is empty.
    fn add_with(
        &self,
        alloc: Global,
        at: usize,
        number: usize,
        other: &str,
        texts: &mut Vec<String>,
    ) -> Result<(), AllocError> {
        let line = line_with(alloc, self.line(at), number, other)?;
        let text = self.text_with(alloc, at, Some(line.as_str()))?;
        Ok(texts.push(text)?)
    }

    /// Adds the texts where the word of a number in the line at a place is each other word, isn't there, or stands twice.
    fn add_changes(
        &self,
        alloc: Global,
        at: usize,
        number: usize,
        word: &str,
        texts: &mut Vec<String>,
    ) -> Result<(), AllocError> {
        for other in &self.words {
            if other.as_str() != word {
                self.add_with(alloc, at, number, other.as_str(), texts)?;
            }
        }
        self.add_with(alloc, at, number, "", texts)?;
        let twice = format!(in alloc; "{word} {word}")?;
        self.add_with(alloc, at, number, twice.as_str(), texts)
    }

    /// The texts where one word of the line at a place is changed, and where the line isn't there or stands behind the next.
    pub fn changes(&self, alloc: Global, at: usize) -> Result<Vec<String>, AllocError> {
        let mut texts = Vec::new(alloc);
        for (number, word) in self.line(at).split(' ').enumerate() {
            self.add_changes(alloc, at, number, word, &mut texts)?;
        }
        texts.push(self.text_with(alloc, at, None)?)?;
        if at.saturating_add(1) < self.lines.len() {
            texts.push(self.swapped(alloc, at)?)?;
        }
        Ok(texts)
    }
}
