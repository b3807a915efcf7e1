//! Flights on threads and over the table of words, compared with flights on one thread.
//!
//! Blank lines separate the rows of `rows.txt`. The first line of a row has one of the following forms. `SPEC` and
//! `SCRIPT` are names of files beside `rows.txt`.
//!
//! - `fly SPEC SCRIPT`: Flies the mission on one thread, and then on threads over words and over a lock: many times
//!   with a thread for each processor, and once each with threads for no processor, for all but the first, and for
//!   all but the last. The history of each flight over the lock is written, read, and flown again. Prints how often
//!   each result equals the result on one thread.
//! - `steps COUNT SPEC SCRIPT`: Does the same once for each step below `COUNT`, with a thread for each processor. The
//!   step replaces `STEP` in the script. All results are compared with the result on one thread with step 0.
//! - `meet SPEC SCRIPT`: Flies the mission over words and over a lock with boxes that count their calls, and prints
//!   the counts.
//! - `repeat DECK TIMES SPEC SCRIPT`: Flies the mission `TIMES` times without comparing the results, so that the
//!   flights can be timed.
//! - `turns: ..`: Flies a mission turn by turn over the table of words, as module `words` says.
//! - `note COUNT`: Publishes the first `COUNT` rows of a mission of `uav`, whose script is in the line `= SCRIPT`.
//!   Prints the summaries that two readers see. The first reader is created before the rows are published, and the
//!   second one after them.
//! - `watch NUMBER`: Flies the mission generated from `NUMBER` while two readers read. Compares each summary that they
//!   see with that of the flight on one thread.
//!
//! In a row of the form `meet`, each box of the first two processors waits until a box of the other processor has
//! been called. If both processors have threads, no box waits in vain. If one thread flies both processors, the box
//! that is called first waits in vain. A box is called once in each frame in which its processor hosts its
//! application. The box is in the first rack of the processor until a halt, and in its spare rack after a restart.
#![tactic(auto)]

mod comparisons;
mod decks;
mod documents;
mod histories;
mod meetings;
mod repeats;
mod watches;
mod words;

use crate::comparisons::{fly, fly_steps};
use crate::meetings::meet;
use crate::repeats::repeat;
use crate::watches::{note, watch};
use crate::words::make_turns;
use std::alloc::AllocGlobal;
use std::io::{self, ErrorKind};
use std::sync::Wait;
use std::thread::Threads;
use test_kit::{each_row, line_after, number, split_word};

fn main(rt: HostRuntime) -> io::Result<()> {
    each_row(&rt, |title, lines| answer(&rt, &rt, title, lines))
}

/// Does what a row requests, and prints the results.
fn answer<R: AllocGlobal + Threads + Wait + Sync>(
    rt: &HostRuntime,
    threads: &R,
    title: &str,
    lines: &str,
) -> io::Result<()> {
    let (form, words) = split_word(title);
    match form {
        "fly" => fly(rt, threads, words),
        "meet" => meet(rt, threads, words),
        "steps" => fly_steps(rt, threads, words),
        "repeat" => repeat(rt, threads, words),
        "turns:" => make_turns(rt, lines),
        "note" => note(rt, number(words)?, line_after(lines, "= ").unwrap_or("")),
        "watch" => watch(rt, threads, number(words)?),
        _ => Err(ErrorKind::InvalidInput.into()),
    }
}
