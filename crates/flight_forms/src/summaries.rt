//! The values of a flight's summary line that are computed from the rows and reports of the flight.

ghost use Rattle.std.specs.Prelude.{◌≡◌};
ghost use Rattle.flight_forms.specs.Summaries.{duration, last_run, longest_duration};

use frame_model::running;
use scram_types::{ConfId, Report, Row, Spec};

/// Returns the duration in frames of the longest finished reconfiguration, or 0 if none is finished.
pub fn longest_duration(reports: &[Report]) -> u32
    ensures { result ≡ longest_duration reports.now }
{
    let mut most = 0;
    for report in reports {
        most = duration(report).max(most);
    }
    most
}

fn duration(report: &Report) -> u32
    ensures { result ≡ duration report.now }
{
    match report.to {
        Some(_) => report.end.saturating_sub(report.begin),
        None => 0,
    }
}

/// Returns the last configuration that a row runs, or the start configuration if no row runs one.
pub fn last_run(spec: &Spec, rows: &[Row]) -> ConfId
    ensures { result ≡ last_run spec.now rows.now }
{
    let mut last = spec.start;
    for row in rows {
        if let Some(c) = running(spec, &row.acts) {
            last = c;
        }
    }
    last
}
