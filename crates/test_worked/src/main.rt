//! A test of worked rows. The rows of `rows.txt` are separated by blank lines. The title of a row has the words of
//! the command, and its other lines determine the files that the words name. The program prints the answer of the
//! command. Of a flight's frames, it prints only those whose numbers follow `: `.
//!
//! The expected output is worked out by hand from the rules, with four exceptions:
//!
//! - The lines of `fly` were computed by another program.
//! - The missions of `gen` are printed by `bench/generate`.
//! - The flights and bounds of `vtol` are printed by `bench/flights`.
//! - The other traces that are judged were printed by this command.
#![tactic(auto)]

mod answers;
mod files;

use crate::answers::{Outside, answer, answer_counted, make_sink, plain_processor, print_answer};
use crate::files::{is_counted, is_put_failing, list_words, make_files};
use scram_io::MemSink;
use std::alloc::AllocGlobal;
use std::io;
use std::sync::Wait;
use std::thread::Threads;
use test_kit::{Counters, each_row, line_after};

fn main(rt: HostRuntime) -> io::Result<()> {
    each_row(&rt, |title, lines| answer_row(&rt, &rt, title, lines))
}

/// Prints the answer of the command to the words of a row.
fn answer_row<R: AllocGlobal + Threads + Wait + Sync>(
    rt: &HostRuntime,
    threads: &R,
    words: &str,
    row: &str,
) -> io::Result<()> {
    let words = list_words(rt.alloc(), words)?;
    answer_words(rt, threads, &words, row)
}

fn answer_words<R: AllocGlobal + Threads + Wait + Sync>(
    rt: &HostRuntime,
    threads: &R,
    words: &[String],
    row: &str,
) -> io::Result<()> {
    let frames = line_after(row, ": ").unwrap_or("");
    let plain = plain_processor(rt, row)?;
    let files = make_files(rt, words, row)?;
    let sink = make_sink(rt, row)?;
    let outside = Outside { files, sink };
    if is_counted(row) {
        print_counted(rt, threads, words, outside, frames)
    } else {
        let (status, sink) = answer(rt, threads, words, outside, plain)?;
        print_plain(rt, status, &sink, row, frames)
    }
}

/// Prints the answer of the command. If the row names a put that fails, also prints the number of lines that were
/// written.
fn print_plain(
    rt: &HostRuntime,
    status: u8,
    sink: &MemSink,
    row: &str,
    frames: &str,
) -> io::Result<()> {
    print_answer(rt, sink.bytes(), frames)?;
    if is_put_failing(row) {
        let lines = sink.bytes().iter().filter(|byte| **byte == b'\n').count();
        println!(rt; "lines {lines}")?;
    }
    println!(rt; "status {status}\n")
}

/// Prints the answer of the command with boxes that count their calls, and the counts.
fn print_counted<R: AllocGlobal + Threads + Wait + Sync>(
    rt: &HostRuntime,
    threads: &R,
    words: &[String],
    outside: Outside,
    frames: &str,
) -> io::Result<()> {
    let counters = Counters::new(rt.alloc())?;
    let (status, sink) = answer_counted(rt, threads, words, outside, &counters)?;
    print_answer(rt, sink.bytes(), frames)?;
    counters.print(rt)?;
    println!(rt; "status {status}\n")
}
