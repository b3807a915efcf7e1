//! Schedules that are read, written and flown again. The traces are from the worked rows of the command and from
//! `bench/flights`. The schedule of a row consists of the pieces in its lines `line`, `rest` and `turns`, in order:
//!
//! - `= SCRIPT`: The script of the row.
//! - `line TEXT`: A line of the schedule.
//! - `rest TEXT`: The text after the last line feed of the schedule.
//! - `turns`: The whole round-robin schedule.
//! - `turns FROM TO`: The lines of the round-robin schedule from `FROM`, counted from 0, up to but not including
//!   `TO`.
//! - `brief`: Leaves out the rows of the trace.
//! - `on FILE`: The file of the specification, instead of `uav`.
//!
//! If the schedule can be read, the program prints the number of its events, and whether the text that is written for
//! the events is read back to the same events. It then flies the mission by the schedule.

mod answers;
mod schedule_flights;
mod schedules;

use crate::replays::schedule_flights::answer_row;
use std::io;
use std::rt::HostRuntime;
use test_kit::spec_of_row;

/// Answers a row, and prints the results.
pub fn answer(rt: &HostRuntime, lines: &str) -> io::Result<()> {
    let spec = spec_of_row(rt, lines)?;
    answer_row(rt, &spec, lines)
}
