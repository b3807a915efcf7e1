//! The lines of a row. Each line begins with a word for its kind.

use std::alloc::Global;
use std::io::{self, ErrorKind};

/// Returns the text after `words` in the first line of a row that begins with `words`, or `None` if there is no such
/// line.
pub fn line_after<'a>(row: &'a str, words: &str) -> Option<&'a str> {
    for line in row.split('\n') {
        if let Some(rest) = line.strip_prefix(words) {
            return Some(rest);
        }
    }
    None
}

/// Returns the number after `words` in the first line of a row that begins with `words`, or `other` if there is no
/// such line.
///
/// # Errors
///
/// Returns an error if the text after `words` does not parse as a `u32`.
pub fn number_after(row: &str, words: &str, other: u32) -> io::Result<u32> {
    match line_after(row, words) {
        Some(digits) => number(digits),
        None => Ok(other),
    }
}

/// Parses a number as a `u32`.
///
/// # Errors
///
/// Returns an error if `digits` does not parse as a `u32`.
pub fn number(digits: &str) -> io::Result<u32> {
    match digits.parse::<u32>() {
        Ok(number) => Ok(number),
        Err(_) => Err(ErrorKind::InvalidInput.into()),
    }
}

/// Returns the first word of a line, and the text after the space that follows it. The second text is empty if there
/// is no space.
pub fn split_word(line: &str) -> (&str, &str) {
    line.split_once(' ').unwrap_or((line, ""))
}

/// Returns a text in which the first occurrence of `word` is replaced by a number, or the text itself if `word` does
/// not occur.
///
/// # Errors
///
/// Returns an error if memory runs out.
pub fn fill(alloc: Global, text: &str, word: &str, number: u32) -> io::Result<String> {
    let filled = match text.split_once(word) {
        Some((before, after)) => format!(in alloc; "{before}{number}{after}")?,
        None => format!(in alloc; "{text}")?,
    };
    Ok(filled)
}

/// Returns a text in which the first occurrence of `piece` is replaced by `new`.
///
/// # Errors
///
/// Returns an error if `piece` does not occur in the text, or if memory runs out.
pub fn change_piece(alloc: Global, text: &str, piece: &str, new: &str) -> io::Result<String> {
    match text.split_once(piece) {
        Some((before, after)) => Ok(format!(in alloc; "{before}{new}{after}")?),
        None => Err(ErrorKind::InvalidInput.into()),
    }
}
