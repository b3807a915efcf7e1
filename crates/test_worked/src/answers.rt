//! The answer of the command to the words of a row.

use crate::files::numbers;
use app_model::{Boxes, Rack, racks_fit};
use more_apps::PlainAutopilot;
use racks::racks_and_spares;
use scram_cli::scram;
use scram_io::{MemFiles, MemSink};
use std::alloc::AllocGlobal;
use std::io::{self, ErrorKind};
use std::rt::HostRuntime;
use std::sync::Wait;
use std::thread::Threads;
use test_kit::{Counters, counted_racks_and_spares};

/// The number of bytes for which a sink has room if the row does not say otherwise. It exceeds the output of any row.
const ROOM: u32 = 200_000;

/// The files that the command reads, and the sink to which it writes.
#[derive(Drop)]
pub struct Outside {
    pub files: MemFiles,
    pub sink: MemSink,
}

/// Creates the boxes, calls the command, and returns the status and the sink. If `plain` names a processor, that
/// processor gets the autopilot that does not remember its last call.
pub fn answer<R: AllocGlobal + Threads + Wait + Sync>(
    rt: &HostRuntime,
    threads: &R,
    words: &[String],
    outside: Outside,
    plain: Option<u32>,
) -> io::Result<(u8, MemSink)> {
    let (racks, spares) = racks_and_spares!(rt, plain, PlainAutopilot::new());
    call(threads, words, outside, racks, spares)
}

/// Calls the command with boxes that count their calls, and returns the status and the sink.
pub fn answer_counted<R: AllocGlobal + Threads + Wait + Sync>(
    rt: &HostRuntime,
    threads: &R,
    words: &[String],
    outside: Outside,
    counters: &Counters,
) -> io::Result<(u8, MemSink)> {
    let (racks, spares) = counted_racks_and_spares!(rt, counters);
    call(threads, words, outside, racks, spares)
}

/// Returns the sink of a row. The row determines the room of the sink, and the puts that fail.
pub fn make_sink(rt: &HostRuntime, row: &str) -> io::Result<MemSink> {
    let failing = numbers(rt.alloc(), row, "! put ")?;
    let rooms = numbers(rt.alloc(), row, "! room ")?;
    let room = rooms.first().copied().unwrap_or(ROOM);
    match MemSink::new(rt.alloc(), room as usize, failing) {
        Ok(sink) => Ok(sink),
        Err(_) => Err(ErrorKind::OutOfMemory.into()),
    }
}

/// Returns the processor that has the plain autopilot, or `None` if the row names none.
pub fn plain_processor(rt: &HostRuntime, row: &str) -> io::Result<Option<u32>> {
    let procs = numbers(rt.alloc(), row, "! plain ")?;
    Ok(procs.first().copied())
}

fn call<R: AllocGlobal + Threads + Wait + Sync>(
    threads: &R,
    words: &[String],
    outside: Outside,
    racks: Vec<Rack>,
    spares: Vec<Rack>,
) -> io::Result<(u8, MemSink)> {
    if !racks_fit(&racks) || !racks_fit(&spares) {
        return Err(ErrorKind::InvalidInput.into());
    }
    let Outside {
        mut files,
        mut sink,
    } = outside;
    let status = scram(
        threads,
        words,
        &mut files,
        &mut sink,
        Boxes { racks, spares },
    );
    Ok((status.code, sink))
}

/// Prints the text that the command wrote, but only those frames of a flight that are named in `frames`.
pub fn print_answer(rt: &HostRuntime, bytes: &[u8], frames: &str) -> io::Result<()> {
    let Ok(text) = str::from_utf8(bytes) else {
        return Err(ErrorKind::InvalidData.into());
    };
    let mut is_wanted = true;
    for line in text.split('\n') {
        is_wanted = is_line_wanted(line, frames, is_wanted);
        if is_wanted && !line.is_empty() {
            println!(rt; "{line}")?;
        }
    }
    Ok(())
}

/// Returns `true` if a line is to be printed. `before` is `true` if the preceding line is printed.
fn is_line_wanted(line: &str, frames: &str, before: bool) -> bool {
    match line.split_once(' ') {
        Some(("frame", rest)) => is_frame_wanted(rest, frames),
        Some(("app", _)) => before,
        _ => true,
    }
}

fn is_frame_wanted(rest: &str, frames: &str) -> bool {
    match rest.split_once(' ') {
        Some((number, _)) => frames.split(' ').any(|frame| frame == number),
        None => false,
    }
}
