//! Flights of the kernel on two units. The lines of a row are:
//!
//! - `= SCRIPT`: The script of the row, for `uav`.
//! - `units N`, `frames N`, `steps N`: The script is flown to its end with a halt of each unit, in each frame, after
//!   each number of steps below these numbers. Without a line `units`, it is flown once. A missing number of frames
//!   or steps is 1.
//! - `halt UNIT FRAME STEP`: The halt of a row without a line `units`. Without this line, no unit halts.
//! - `try EVENT`: Makes an event in a flight with the halt of the line `halt`, or for `go UNIT` all next events of
//!   the unit. The events of all such lines are made one by one. Each event is printed with its result and with the
//!   next events of both units.
//!
//! A row without lines `try` compares each result with the result on one thread.

mod halts;
mod rows;
mod tries;

use crate::pairs::rows::fly_row;
use crate::pairs::tries::try_row;
use coverage_check::Mission;
use std::io;
use std::rt::HostRuntime;
use test_kit::{line_after, mission_of_texts, uav_text};

/// Answers a row, and prints the results.
pub fn answer(rt: &HostRuntime, lines: &str) -> io::Result<()> {
    let spec = uav_text(rt.alloc())?;
    let script = line_after(lines, "= ").unwrap_or("");
    let mission = mission_of_texts(rt.alloc(), spec.as_str(), script)?;
    answer_row(rt, &mission, lines)
}

fn answer_row(rt: &HostRuntime, mission: &Mission, lines: &str) -> io::Result<()> {
    if line_after(lines, "try ").is_some() {
        try_row(rt, mission, lines)
    } else {
        fly_row(rt, mission, lines)
    }
}
