//! Lines, and words between blanks.

ghost use Rattle.std.specs.Prelude.{◌≡◌, map, IfOk};
ghost use Rattle.script_words.specs.Pieces.{behind, parts_words, pieces, line_words, text_lines, text_words};
ghost use Rattle.script_words.specs.Words.{words_now};
ghost use Rattle.script_words.specs.steps.Pieces.{place_view};

use std::alloc::{AllocError, Global};

/// The parts between the separators: one more than there are separators, some of them empty.
pub fn split<'a>(alloc: Global, text: &'a [u8], separator: u8) -> Result<Vec<&'a [u8]>, AllocError>
    ensures { IfOk result (λ parts. map (λ part. part.now) parts.items ≡ pieces separator text.now) }
{
    let mut parts = Vec::new(alloc);
    let mut from = 0;
    for (at, byte) in text.iter().enumerate() {
        if *byte == separator {
            parts.push(&text[from..at])?;
            from = at + 1;
        }
    }
    parts.push(&text[from..])?;
    Ok(parts)
}

/// Where in a line a byte stands: in no string, in one, or behind a backslash in one.
#[derive(Clone, Copy)]
enum Place {
    Outside,
    Inside,
    Escaped,
}

/// Where the next byte stands.
fn behind(place: Place, byte: u8) -> Place
    ensures { place_view result ≡ behind (place_view place) byte }
{
    match place {
        Place::Outside if byte == b'"' => Place::Inside,
        Place::Outside => Place::Outside,
        Place::Inside if byte == b'"' => Place::Outside,
        Place::Inside if byte == b'\\' => Place::Escaped,
        Place::Inside | Place::Escaped => Place::Inside,
    }
}

/// Whether a byte parts words.
fn parts_words(place: Place, byte: u8) -> bool
    ensures { result ≡ parts_words (place_view place) byte }
{
    match place {
        Place::Outside => byte == b' ',
        Place::Inside | Place::Escaped => false,
    }
}

/// The words of a line: what stands between the blanks that are in no string.
fn words_of<'a>(alloc: Global, line: &'a [u8]) -> Result<Vec<&'a [u8]>, AllocError>
    ensures { IfOk result (λ words. map (λ word. word.now) words.items ≡ line_words line.now) }
{
    let mut words = Vec::new(alloc);
    let mut from = 0;
    let mut place = Place::Outside;
    for (at, byte) in line.iter().enumerate() {
        if parts_words(place, *byte) {
            words.push(&line[from..at])?;
            from = at + 1;
        }
        place = behind(place, *byte);
    }
    words.push(&line[from..])?;
    Ok(words)
}

/// The words of a line.
#[derive(Drop)]
pub struct Words<'a> {
    pub words: Vec<&'a [u8]>,
}

/// The lines of the text: the last may end in LF or lack it, and the empty text has no line.
fn text_lines<'a>(alloc: Global, text: &'a [u8]) -> Result<Vec<&'a [u8]>, AllocError>
    ensures { IfOk result (λ lines. map (λ line. line.now) lines.items ≡ text_lines text.now) }
{
    let mut lines = split(alloc, text, b'\n')?;
    if let Some(last) = lines.pop() {
        if !last.is_empty() {
            lines.push(last)?;
        }
    }
    Ok(lines)
}

/// The words of each of the lines.
fn split_each<'a>(alloc: Global, lines: &[&'a [u8]]) -> Result<Vec<Words<'a>>, AllocError>
    ensures { IfOk result (λ words. map words_now words.items ≡ map line_words (map (λ line. line.now) lines.now)) }
{
    let mut each = Vec::new(alloc);
    for line in lines {
        let words = words_of(alloc, line)?;
        each.push(Words { words })?;
    }
    Ok(each)
}

/// The lines of the text, each in its words.
pub fn text_words<'a>(alloc: Global, text: &'a [u8]) -> Result<Vec<Words<'a>>, AllocError>
    ensures { IfOk result (λ lines. map words_now lines.items ≡ text_words text.now) }
{
    let lines = text_lines(alloc, text)?;
    split_each(alloc, lines.as_slice())
}
