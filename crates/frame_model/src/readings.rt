//! Reading reconfigurations off the acts of rows.

ghost use Rattle.std.specs.Prelude.{◌≡◌, ◌<◌, ◌^◌, ◌++◌, length, IfOk};
ghost use Rattle.frame_model.specs.Readings.{arrive, arrival, as_list, close, read_row, report_of, reports};

use crate::acts::{running, runs};
use scram_types::{Act, ConfId, NoMemory, Report, Row, Spec};
use std::alloc::Global;

/// The state of reading reconfigurations after the rows so far.
#[derive(Clone, Copy)]
pub enum Reading {
    /// Each row since the end of the last reconfiguration runs this configuration.
    Steady(ConfId),
    /// This configuration was left in this frame, and no row has run any configuration since.
    Leaving(ConfId, u32),
}

/// Reads the row of a frame. Returns the new reading, and the reconfiguration that ends with the row, if any. The
/// first row that does not run the configuration of a `Steady` reading makes the reading `Leaving`. The first later
/// row that runs some configuration makes the reading `Steady` and ends the reconfiguration. If that row runs
/// several, the one with the smallest number counts.
pub fn read_row(
    spec: &Spec,
    reading: Reading,
    frame: u32,
    acts: &[Act; 8],
) -> (Reading, Option<Report>)
    ensures reading { result.0 ≡ read_row spec.now reading frame acts.now }
    ensures report { result.1 ≡ report_of spec.now reading frame acts.now }
{
    match reading {
        Reading::Steady(c) => {
            if runs(spec, acts, c) {
                (Reading::Steady(c), None)
            } else {
                (Reading::Leaving(c, frame), None)
            }
        }
        Reading::Leaving(c, begin) => arrive(c, begin, frame, running(spec, acts)),
    }
}

fn arrive(from: ConfId, begin: u32, frame: u32, to: Option<ConfId>) -> (Reading, Option<Report>)
    ensures reading { result.0 ≡ arrive from begin to }
    ensures report { result.1 ≡ arrival from begin frame to }
{
    match to {
        Some(to) => (
            Reading::Steady(to),
            Some(Report {
                from,
                to: Some(to),
                begin,
                end: frame,
            }),
        ),
        None => (Reading::Leaving(from, begin), None),
    }
}

/// Returns the reconfiguration that is cut off after `frames` frames, or `None` if no reconfiguration is under way.
pub fn close(reading: Reading, frames: u32) -> Option<Report>
    ensures { result ≡ close reading frames }
{
    match reading {
        Reading::Steady(_) => None,
        Reading::Leaving(from, begin) => Some(Report {
            from,
            to: None,
            begin,
            end: frames,
        }),
    }
}

/// Returns the reconfigurations that are read off rows, in order. The first row is that of frame 0, and the start
/// configuration runs before it. The last reconfiguration may be cut off by the end of the rows. Returns an error
/// only if memory runs out.
pub fn reports(alloc: Global, spec: &Spec, rows: &[Row]) -> Result<Vec<Report>, NoMemory>
    requires { length rows.now < 2 ^ 32 }
    ensures { IfOk result (λ list. list.items ≡ reports spec.now rows.now) }
{
    let mut reports = Vec::new(alloc);
    let mut reading = Reading::Steady(spec.start);
    let mut frame = 0;
    for row in rows {
        let (next, report) = read_row(spec, reading, frame, &row.acts);
        add(&mut reports, report)?;
        reading = next;
        frame += 1;
    }
    add(&mut reports, close(reading, frame))?;
    Ok(reports)
}

fn add(reports: &mut Vec<Report>, report: Option<Report>) -> Result<(), NoMemory>
    ensures { IfOk result (λ done. reports.new.items ≡ reports.old.items ++ as_list report) }
{
    if let Some(report) = report {
        reports.push(report)?;
    }
    Ok(())
}
