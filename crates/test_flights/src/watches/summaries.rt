//! The summaries of a flight, computed from the flight on one thread.

use coverage_check::Mission;
use fault_script::walks::up_set_at;
use frame_model::running;
use scram_types::{Flown, Report, Row, Spec};
use std::alloc::Global;
use std::io;
use std::rt::HostRuntime;
use telemetry_tap::Summary;

/// Returns the summaries of a flight. The entry at index `n` is the summary of the first `n` frames.
///
/// # Errors
///
/// Returns an error if memory runs out.
pub fn list_summaries(alloc: Global, mission: &Mission, flown: &Flown) -> io::Result<Vec<Summary>> {
    let mut summaries = Vec::new(alloc);
    summaries.push(Summary {
        frames: 0,
        running: 255,
        up: up_set_at(mission.spec(), mission.script(), 0),
        begun: 0,
    })?;
    for row in flown.rows.items() {
        summaries.push(summary_of(mission.spec(), row, flown.reports.items()))?;
    }
    Ok(summaries)
}

fn summary_of(spec: &Spec, row: &Row, reports: &[Report]) -> Summary {
    Summary {
        frames: row.frame.saturating_add(1),
        running: match running(spec, &row.acts) {
            Some(conf) => conf.0,
            None => 255,
        },
        up: row.env.up,
        begun: count_begun(reports, row.frame),
    }
}

/// Returns the number of reconfigurations that begin in a frame up to `frame`, inclusive.
fn count_begun(reports: &[Report], frame: u32) -> u32 {
    let mut begun = 0u32;
    for report in reports {
        if report.begin <= frame {
            begun = begun.saturating_add(1);
        }
    }
    begun
}

/// Prints a summary, preceded by a title.
pub fn print_summary(rt: &HostRuntime, title: &str, summary: &Summary) -> io::Result<()> {
    println!(rt;
        "{title}: frames {} running {} up {} begun {}",
        summary.frames, summary.running, summary.up, summary.begun
    )
}
