//! Flights of missions by many schedules. The expected output is worked out by hand from the rules.
//!
//! The rows of `rows.txt` are separated by blank lines. The first line of a row is its title, and the other lines
//! are:
//!
//! - `= SCRIPT`: The script of the row. It is flown with each halt of the row: the numbers of the halt replace
//!   `PROC`, `FRAME` and `STEP`, and the frame of the halt plus 2 replaces `RESTART`.
//! - `processors N`, `frames N`, `steps N`: The row has a halt for each processor, frame and step below these
//!   numbers. A missing number is 1.
//! - `by RULE ..`: Flies the script with each halt to its end by each rule. Each result is judged, and compared with
//!   the result on one thread.
//! - `seeds N`: In a row with rules, flies the script also by a random choice of actors for each seed below `N`.
//! - `alike`: Compares all results with the first one, and prints the reconfigurations of the first one.
//! - `after EVENTS RULE WORD`: Flies the script for this number of events by the rule. Then prints the core's answer
//!   to the event `flip` or `release`, the kernel's frame and next event for `kernel`, or what the second processor
//!   has read for `seen`.
//! - `on FILE`: The file of the specification, instead of `uav`.
#![tactic(auto)]

mod choices;
mod comparisons;
mod halts;
mod looks;
mod ruled;
mod scripts;

use crate::comparisons::fly_row;
use crate::looks::look_row;
use scram_types::Spec;
use std::io;
use test_kit::{each_row, spec_of_row};

fn main(rt: HostRuntime) -> io::Result<()> {
    each_row(&rt, |_title, lines| {
        answer(&rt, lines)?;
        println!(rt; "")
    })
}

fn answer(rt: &HostRuntime, lines: &str) -> io::Result<()> {
    let spec = spec_of_row(rt, lines)?;
    let answer = answer_row(rt, &spec, lines);
    drop(spec);
    answer
}

fn answer_row(rt: &HostRuntime, spec: &Spec, lines: &str) -> io::Result<()> {
    fly_row(rt, spec, lines)?;
    look_row(rt, spec, lines)
}
