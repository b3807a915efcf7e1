//! The lines of a summary, made without allocating.

ghost use Rattle.std.specs.Prelude.{◌≡◌, ◌<◌, ◌≤◌, ◌+◌, ◌++◌, ◌^◌, length};
ghost use Rattle.scram_types.specs.declared.limits.TheConstants.{MAX_LINE_BYTES};
ghost use Rattle.trace_forms.specs.summary_form.Lines.{app_summary_line, change_line, flight_line, ranges_text, reconfiguration_line, world_line};

use flight_facts::acts::{ActWord, count_acts};
use flight_facts::decisions::{add_cause, add_difference_or_dash};
use flight_facts::extremes::{Extremes, Quantity, add_extremes, extremes_of};
use flight_facts::gaps::{add_gap, longest_gap};
use flight_facts::margins::add_margin;
use flight_facts::unfinished::count_unfinished;
use form_base::lines::add_counts;
use scram_types::lookups::{env_before, env_in};
use scram_types::{AppSpec, Flown, Report, Row, Spec};
use trace_text::lines::Line;
use trace_text::report_lines::add_target;

/// Returns the line of the flight, with the numbers of its frames, its reconfigurations and its unfinished
/// reconfigurations.
pub fn make_flight_line(flown: &Flown) -> Line
    requires rows { length flown.now.rows < 2 ^ 32 }
    requires reports { length flown.now.reports < 2 ^ 32 }
    ensures { result ≡ flight_line flown.now.rows flown.now.reports }
{
    let mut line = Line::new();
    line.text(b"flight");
    add_counts(&mut line, flown);
    line.text(b" unfinished ");
    line.number(count_unfinished(flown.reports.items()));
    line.text(b"\n");
    line
}

/// Returns the line of the reconfiguration `report`. `earlier` is the preceding reconfiguration, or `None` if there
/// is none.
pub fn make_reconfiguration_line(
    spec: &Spec,
    rows: &[Row],
    earlier: Option<Report>,
    report: &Report,
) -> Line
    ensures { result ≡ reconfiguration_line spec.now rows.now earlier report.now }
{
    let mut line = Line::new();
    line.text(b"reconfiguration ");
    line.text(spec.conf_name(report.from).as_bytes());
    add_target(&mut line, spec, report);
    line.text(b" margin ");
    add_margin(&mut line, spec, report);
    line.text(b" cause ");
    add_cause(&mut line, spec, rows, earlier, report.begin);
    line.text(b"\n");
    line
}

/// Returns the line with the changes of the environment from the preceding row to row `k`. If nothing changed, the
/// line has `-` instead.
pub fn make_change_line(spec: &Spec, rows: &[Row], k: usize) -> Line
    requires { k < 2 ^ 32 }
    ensures { result ≡ change_line spec.now rows.now k }
{
    let mut line = Line::new();
    line.text(b"  frame ");
    line.number(k as u32);
    line.text(b" ");
    add_difference_or_dash(&mut line, spec, env_before(spec, rows, k), env_in(rows, k));
    line.text(b"\n");
    line
}

/// Returns the line of application `a`: the numbers of rows in which the application ran, was lost and was off, and
/// the longest gap of the application.
pub fn make_app_line(rows: &[Row], a: usize, app: &AppSpec) -> Line
    requires app { a < 8 }
    requires rows { length rows.now < 2 ^ 32 }
    ensures { result ≡ app_summary_line rows.now a app.now }
{
    let mut line = Line::new();
    line.text(b"app ");
    line.text(app.name.as_str().as_bytes());
    line.text(b" ran ");
    line.number(count_acts(ActWord::Ran, a, rows));
    line.text(b" lost ");
    line.number(count_acts(ActWord::Lost, a, rows));
    line.text(b" off ");
    line.number(count_acts(ActWord::Off, a, rows));
    add_gap(&mut line, longest_gap(rows, a));
    line.text(b"\n");
    line
}

/// Returns the line of the world. It has the ranges of altitude, climb and bank, or `-` if there are no rows.
pub fn make_world_line(rows: &[Row]) -> Line
    ensures { result ≡ world_line rows.now }
{
    let altitude = extremes_of(Quantity::Altitude, rows);
    let climb = extremes_of(Quantity::Climb, rows);
    let bank = extremes_of(Quantity::Bank, rows);
    let mut line = Line::new();
    line.text(b"world");
    add_ranges(&mut line, altitude, climb, bank);
    line.text(b"\n");
    line
}

fn add_ranges(
    line: &mut Line,
    altitude: Option<Extremes>,
    climb: Option<Extremes>,
    bank: Option<Extremes>,
)
    requires { length line.old + 200 ≤ MAX_LINE_BYTES }
    ensures text { line.new ≡ line.old ++ ranges_text altitude climb bank }
    ensures short { length line.new ≤ length line.old + 200 }
{
    match (altitude, climb, bank) {
        (Some(altitude), Some(climb), Some(bank)) => {
            line.text(b" altitude ");
            add_extremes(line, &altitude);
            line.text(b" climb ");
            add_extremes(line, &climb);
            line.text(b" bank ");
            add_extremes(line, &bank);
        }
        (None, _, _) => line.text(b" -"),
        (Some(_), None, _) => line.text(b" -"),
        (Some(_), Some(_), None) => line.text(b" -"),
    }
}
