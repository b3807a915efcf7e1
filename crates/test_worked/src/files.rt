//! The files of a row, and the lines of the row that determine the files, the sink and the boxes:
//!
//! - The first file is in the data folder. Each line `~ PIECE => OTHER` replaces the first occurrence of `PIECE` in
//!   the file by `OTHER`.
//! - The second file has the lines of the row that begin with `= `. It is missing if no line begins with `=`.
//! - The third file has the lines of the row that begin with `- `. It is missing if no line begins with `-`.
//! - `! read N` and `! put N`: Makes read `N` or put `N` fail. Reads and puts are counted from 0. If a put fails, the
//!   number of lines that were written is printed.
//! - `! room N`: The number of bytes for which the sink has room.
//! - `! first N` and `! second N`: Extend the first or the second file to `N` bytes, with spaces at its end.
//! - `! plain N`: Gives processor `N` the autopilot that does not remember its last call.
//! - `! counted`: Gives each processor boxes that count their calls, and prints the counts. The boxes of the first
//!   two processors wait for one another.

use scram_io::MemFiles;
use std::alloc::Global;
use std::rt::HostRuntime;
use std::{fs, io};
use test_kit::{change_piece, number};

/// Returns the words of a line.
pub fn list_words(alloc: Global, line: &str) -> io::Result<Vec<String>> {
    let mut words = Vec::new(alloc);
    for word in line.split(' ') {
        words.push(word.to_string(alloc)?)?;
    }
    Ok(words)
}

/// Returns the files that the command's words name.
pub fn make_files(rt: &HostRuntime, words: &[String], row: &str) -> io::Result<MemFiles> {
    let mut entries = Vec::new(rt.alloc());
    for (i, word) in words.iter().enumerate() {
        let text = match i {
            1 if word.as_str().ends_with(".json") => {
                let text = fs::read_to_string(rt, word.as_str())?;
                Some(pad(rt.alloc(), change(rt.alloc(), text, row)?, row, "! first ")?)
            }
            2 => match listed_file(rt.alloc(), row, "=")? {
                Some(text) => Some(pad(rt.alloc(), text, row, "! second ")?),
                None => None,
            },
            3 => listed_file(rt.alloc(), row, "-")?,
            _ => None,
        };
        if let Some(text) = text {
            entries.push((word.as_str().to_string(rt.alloc())?, text.into_bytes()))?;
        }
    }
    Ok(MemFiles::new(entries, numbers(rt.alloc(), row, "! read ")?))
}

/// Returns `true` if a row asks for boxes that count their calls.
pub fn is_counted(row: &str) -> bool {
    row.split('\n').any(|line| line == "! counted")
}

/// Returns `true` if a row names a put that fails.
pub fn is_put_failing(row: &str) -> bool {
    row.split('\n').any(|line| line.starts_with("! put "))
}

/// Returns the numbers in the lines of a row that begin with `words`.
pub fn numbers(alloc: Global, row: &str, words: &str) -> io::Result<Vec<u32>> {
    let mut numbers = Vec::new(alloc);
    for line in row.split('\n') {
        if let Some(digits) = line.strip_prefix(words) {
            numbers.push(number(digits)?)?;
        }
    }
    Ok(numbers)
}

/// Returns the text, padded with spaces at its end to a number of bytes. This number is in the line of the row that
/// begins with `words`. Returns the text itself if there is no such line.
fn pad(alloc: Global, text: String, row: &str, words: &str) -> io::Result<String> {
    match numbers(alloc, row, words)?.first() {
        Some(length) => {
            let missing = (*length as usize).saturating_sub(text.len());
            let spaces = " ".repeat(alloc, missing)?;
            Ok(format!(in alloc; "{text}{spaces}")?)
        }
        None => Ok(text),
    }
}

/// Returns the text of the lines of a row that begin with a mark, each without the mark and the space after it.
/// Returns `None` if there is no such line. A line that is only the mark adds no text.
fn listed_file(alloc: Global, row: &str, mark: &str) -> io::Result<Option<String>> {
    let mut file = None;
    for line in row.split('\n') {
        if let Some(rest) = line.strip_prefix(mark) {
            let text = file.unwrap_or_else(|| String::new(alloc));
            file = Some(append_line(alloc, text, rest.strip_prefix(" "))?);
        }
    }
    Ok(file)
}

/// Returns the text, with `line` and a line feed appended unless `line` is `None`.
fn append_line(alloc: Global, text: String, line: Option<&str>) -> io::Result<String> {
    match line {
        Some(line) => Ok(format!(in alloc; "{text}{line}\n")?),
        None => Ok(text),
    }
}

fn change(alloc: Global, text: String, row: &str) -> io::Result<String> {
    let mut text = text;
    for line in row.split('\n') {
        if let Some((piece, new)) = change_of(line) {
            text = change_piece(alloc, text.as_str(), piece, new)?;
        }
    }
    Ok(text)
}

fn change_of(line: &str) -> Option<(&str, &str)> {
    line.strip_prefix("~ ")?.split_once(" => ")
}
