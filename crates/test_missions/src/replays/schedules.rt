//! The bytes of a row's schedule.

use schedule_replay::{in_turns, write_schedule};
use scram_types::{Script, Spec};
use std::alloc::Global;
use std::io::{self, ErrorKind};
use test_kit::{number, split_word};

/// Returns the bytes of the schedule of a row. They are the pieces that the lines of the row contain, in order.
pub fn bytes_of(alloc: Global, spec: &Spec, script: &Script, row: &str) -> io::Result<Vec<u8>> {
    let text = text_in_turns(alloc, spec, script)?;
    match str::from_utf8(&text) {
        Ok(turns) => join_lines(alloc, row, turns),
        Err(_) => Err(ErrorKind::InvalidData.into()),
    }
}

fn text_in_turns(alloc: Global, spec: &Spec, script: &Script) -> io::Result<Vec<u8>> {
    let Ok(list) = in_turns(alloc, spec, script) else {
        return Err(ErrorKind::OutOfMemory.into());
    };
    match write_schedule(alloc, &list, spec) {
        Ok(text) => Ok(text),
        Err(_) => Err(ErrorKind::OutOfMemory.into()),
    }
}

fn join_lines(alloc: Global, row: &str, turns: &str) -> io::Result<Vec<u8>> {
    let mut bytes = Vec::new(alloc);
    for line in row.split('\n') {
        add_line(&mut bytes, line, turns)?;
    }
    Ok(bytes)
}

/// Appends the piece of the schedule that a line of a row contains. A line without a piece appends nothing.
fn add_line(bytes: &mut Vec<u8>, line: &str, turns: &str) -> io::Result<()> {
    if line == "turns" {
        return add_text(bytes, turns);
    }
    match line.split_once(' ') {
        Some(("line", text)) => add_whole_line(bytes, text),
        Some(("rest", text)) => add_text(bytes, text),
        Some(("turns", range)) => add_turns(bytes, range, turns),
        _ => Ok(()),
    }
}

/// Appends the lines of the round-robin schedule from `FROM`, counted from 0, up to but not including `TO`. The text
/// `range` has the form `FROM TO`.
fn add_turns(bytes: &mut Vec<u8>, range: &str, turns: &str) -> io::Result<()> {
    let (from, to) = split_word(range);
    let from = number(from)?;
    let to = number(to)?;
    let mut at: u32 = 0;
    for line in turns.split('\n') {
        if from <= at && at < to {
            add_whole_line(bytes, line)?;
        }
        at = at.saturating_add(1);
    }
    Ok(())
}

fn add_whole_line(bytes: &mut Vec<u8>, text: &str) -> io::Result<()> {
    add_text(bytes, text)?;
    add_text(bytes, "\n")
}

fn add_text(bytes: &mut Vec<u8>, text: &str) -> io::Result<()> {
    match bytes.extend_from_slice(text.as_bytes()) {
        Ok(()) => Ok(()),
        Err(_) => Err(ErrorKind::OutOfMemory.into()),
    }
}
