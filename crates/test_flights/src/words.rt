//! Flights of `uav` with a higher goal, turn by turn over the table of words. The expected output is worked out by
//! hand from the rules. The lines of a row are as follows. `WHO` is `p0`, `p1` or `kernel`.
//!
//! - `= SCRIPT`: The script of the row.
//! - `rounds N WHO ..`: First, makes these turns `N` times.
//! - `turns WHO ..`: Then, makes these turns once, and prints the result of each.
//! - `order WHO ..`: Then, makes these turns again and again until all actors have finished, and compares the rows
//!   with those of one thread.
//! - `look`: At the end, the second processor starts its next frame and reads the image of the first processor. The
//!   areas in the image are printed. Without this line, the table is closed and the marks are printed.
//! - `steps N`: Does all of this for each step below `N`. The step replaces `STEP` in the script.
//! - `on FILE`: The file of the specification, instead of `uav`.

mod crews;
mod looks;
mod rounds;
mod rows;

use crate::words::rows::fly_row;
use std::alloc::Global;
use std::rt::HostRuntime;
use std::{fs, io};
use test_kit::{change_piece, line_after, uav_text};

/// Makes the turns of a row, and prints the results.
pub fn make_turns(rt: &HostRuntime, lines: &str) -> io::Result<()> {
    let text = spec_text(rt, lines)?;
    fly_row(rt, text.as_str(), lines)?;
    println!(rt; "")
}

/// Returns the text of the specification of a row.
fn spec_text(rt: &HostRuntime, row: &str) -> io::Result<String> {
    match line_after(row, "on ") {
        Some(name) => fs::read_to_string(rt, name),
        None => high_text(rt.alloc()),
    }
}

/// Returns the text of `uav` with a goal above its first altitude. With this goal, what the processors see changes
/// from frame to frame.
fn high_text(alloc: Global) -> io::Result<String> {
    let text = uav_text(alloc)?;
    change_piece(
        alloc,
        text.as_str(),
        r#""altitude":5000"#,
        r#""altitude":5200"#,
    )
}
