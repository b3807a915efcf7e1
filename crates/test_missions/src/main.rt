//! Tests of whole missions by direct calls, of schedules, and of pairs of units.
//!
//! Blank lines separate the rows of `rows.txt`. The first line of a row has one of the following forms. Its words are
//! names of files beside `rows.txt`.
//!
//! - `fly SPECIFICATION SCRIPT TRACE`: Flies the mission on one thread, and compares each flight with the trace.
//! - `judge SPECIFICATION TRACE`: Prints the first property that the trace breaks.
//! - `cover SPECIFICATION`: Prints the cover of each configuration.
//! - `draft`: Has live processors draft the frames of a mission, as module `drafts` says.
//! - `replay: ..`: Reads, writes and flies a schedule, as module `replays` says.
//! - `pair: ..`: Flies a mission with the kernel on two units, as module `pairs` says.
//! - `read TIMES SPECIFICATION SCRIPT`, `write TIMES SPECIFICATION SCRIPT`: Reads or writes both documents `TIMES`
//!   times, so that one reading or writing can be timed. Prints what is written.
//!
//! An independent model of the rules made the traces of the form `fly`, except that of `uav`, which is worked out by
//! hand. The targets were found by a walk over all environments. Where the traces of the form `replay` are from, module
//! `replays` says. The results of the other forms are worked out by hand.
#![tactic(auto)]

mod covers;
mod documents;
mod drafts;
mod judgements;
mod missions;
mod pairs;
mod replays;

use crate::covers::print_covers;
use crate::documents::{read_row, write_row};
use crate::drafts::draft;
use crate::judgements::judge;
use crate::missions::fly;
use std::fs;
use std::io::{self, ErrorKind};
use test_kit::{each_row, split_word};

fn main(rt: HostRuntime) -> io::Result<()> {
    each_row(&rt, |title, lines| {
        answer(&rt, title, lines)?;
        println!(rt; "")
    })
}

/// Answers a row, and prints the results.
fn answer(rt: &HostRuntime, title: &str, lines: &str) -> io::Result<()> {
    let (form, words) = split_word(title);
    match form {
        "draft" => draft(rt),
        "replay:" => replays::answer(rt, lines),
        "pair:" => pairs::answer(rt, lines),
        "read" => read_row(rt, words),
        "write" => write_row(rt, words),
        _ => answer_files(rt, form, words),
    }
}

fn answer_files(rt: &HostRuntime, form: &str, files: &str) -> io::Result<()> {
    let (spec, rest) = split_word(files);
    let spec = fs::read_to_string(rt, spec)?;
    match (form, rest.split_once(' ')) {
        ("fly", Some((script, trace))) => {
            let script = fs::read_to_string(rt, script)?;
            let trace = fs::read_to_string(rt, trace)?;
            fly(rt, spec.as_str(), script.as_str(), trace.as_str())
        }
        ("cover", None) => print_covers(rt, spec.as_str()),
        ("judge", None) => {
            let trace = fs::read_to_string(rt, rest)?;
            judge(rt, spec.as_str(), trace.as_str())
        }
        _ => Err(ErrorKind::InvalidInput.into()),
    }
}
