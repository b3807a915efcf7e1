//! The lines that are printed for a flight, made without allocating.

ghost use Rattle.std.specs.Prelude.{◌≡◌, ◌<◌, ◌^◌, length};
ghost use Rattle.flight_forms.specs.Lines.{fly_line, watch_line};

use crate::summaries::{last_run, longest_duration};
use form_base::lines::add_counts;
use scram_types::{Flown, Spec};
use telemetry_tap::Summary;
use trace_text::lines::Line;
use trace_text::row_lines::{add_conf_or_dash, add_up};

/// Returns the line that `fly` prints for the flight of the mission generated from `number`. It has the number of
/// frames, the number of reconfigurations, the duration in frames of the longest finished reconfiguration, and the
/// last configuration that was run.
pub fn make_fly_line(number: u32, spec: &Spec, flown: &Flown) -> Line
    requires rows { length flown.now.rows < 2 ^ 32 }
    requires reports { length flown.now.reports < 2 ^ 32 }
    ensures { result ≡ fly_line number spec.now flown.now.rows flown.now.reports }
{
    let mut line = Line::new();
    line.text(b"fly ");
    line.number(number);
    add_counts(&mut line, flown);
    line.text(b" longest ");
    line.number(longest_duration(flown.reports.items()));
    line.text(b" final ");
    line.text(
        spec.conf_name(last_run(spec, flown.rows.items()))
            .as_bytes(),
    );
    line.text(b"\n");
    line
}

/// Returns the line for a watched flight. It has four values of a summary: the number of frames, the configuration
/// that the last row runs, the processors that are up in that row, and the number of reconfigurations begun.
pub fn make_watch_line(spec: &Spec, summary: &Summary) -> Line
    ensures { result ≡ watch_line spec.now summary.now }
{
    let mut line = Line::new();
    line.text(b"watch frames ");
    line.number(summary.frames);
    line.text(b" running ");
    add_conf_or_dash(&mut line, spec, summary.running_conf());
    line.text(b" up ");
    add_up(&mut line, spec, summary.up);
    line.text(b" begun ");
    line.number(summary.begun);
    line.text(b"\n");
    line
}
