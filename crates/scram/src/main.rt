//! The program. It passes its words, the files of the system, standard output and the boxes of all processors to the
//! command, and ends with the command's status.
#![tactic(auto)]

use app_model::{Boxes, racks_fit};
use racks::racks_and_spares;
use scram_cli::run_program;
use scram_types::NoMemory;
use std::alloc::AllocGlobal;
use std::env;
use std::io::{self, ErrorKind, Print};
use std::process::ExitCode;
use std::rt::Files;
use std::sync::Wait;
use std::thread::Threads;

/// The status if the allocator is out of memory before the command is called.
const NO_MEMORY: u8 = 9;
/// The status if a line that this file prints cannot be written.
const UNWRITTEN_OUTPUT: u8 = 4;
/// The status if a box is not of the kind that its place in a rack requires.
const UNFIT_RACKS: u8 = 1;

fn main(rt: HostRuntime) -> ExitCode {
    let words = match words(&rt) {
        Ok(words) => words,
        // Words that are not all UTF-8 have no form. They are replaced by the empty list, which has no form either.
        Err(error) if error.kind() != ErrorKind::OutOfMemory => Vec::new(rt.alloc()),
        Err(_) => return refuse_memory(&rt),
    };
    match answer(&rt, &rt, &words) {
        Ok(code) => ExitCode::from(code),
        Err(NoMemory) => refuse_memory(&rt),
    }
}

/// Prints the out-of-memory line. Returns `NO_MEMORY`, or `UNWRITTEN_OUTPUT` if the line cannot be written. Nothing
/// has been read or printed before.
fn refuse_memory(rt: &HostRuntime) -> ExitCode {
    match println!(rt; "refused: memory") {
        Ok(()) => ExitCode::from(NO_MEMORY),
        Err(_) => ExitCode::from(UNWRITTEN_OUTPUT),
    }
}

/// Creates the boxes, answers the words, and returns the status. Returns an error if there is no memory for the
/// output buffer.
fn answer<R: AllocGlobal + Files + Print + Threads + Wait + Sync>(
    rt: &HostRuntime,
    threads: &R,
    words: &[String],
) -> Result<u8, NoMemory> {
    let (racks, spares) = racks_and_spares!(rt);
    if !racks_fit(&racks) || !racks_fit(&spares) {
        return Ok(refuse_racks(rt));
    }
    let (status, _files, _out) = run_program(threads, words, Boxes { racks, spares })?;
    Ok(status.code)
}

/// Prints the line that refuses the boxes. Returns `UNFIT_RACKS`, or `UNWRITTEN_OUTPUT` if the line cannot be
/// written.
fn refuse_racks(rt: &HostRuntime) -> u8 {
    match println!(rt; "refused: racks") {
        Ok(()) => UNFIT_RACKS,
        Err(_) => UNWRITTEN_OUTPUT,
    }
}

/// Returns the words after the program's name.
fn words(rt: &HostRuntime) -> io::Result<Vec<String>> {
    let mut words = Vec::new(rt.alloc());
    for word in env::args(rt)?.skip(1) {
        words.push(word)?;
    }
    Ok(words)
}
