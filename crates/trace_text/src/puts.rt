//! Writing the lines of a trace to a sink, one at a time. After the sink has refused a line, no further line is
//! written.

ghost use Rattle.std.specs.Prelude.{◌<◌, ◌^◌, length};
ghost use Rattle.trace_text.specs.Text.{text_of, ending_text, rows_text, reports_text, row_text, app_line_in, app_lines, report_line, end_line};
ghost use Rattle.scram_io.specs.Outside.{Prints};

use crate::lines::Line;
use crate::report_lines::{make_end_line, make_report_line};
use crate::row_lines::{make_app_line, make_row_line};
use scram_io::{Sink, SinkFault};
use scram_types::{AppSpec, Report, Row, Spec};

/// Writes the lines of a row: the first line, and a line for each application.
pub fn put_row<K: Sink>(out: &mut K, spec: &Spec, row: &Row) -> Result<(), SinkFault>
    ensures { Prints result (K.state out.old) (K.state out.new) (row_text spec.now row.now) }
{
    match put_line(out, &make_row_line(spec, row)) {
        Ok(()) => put_apps(out, spec, row),
        Err(fault) => Err(fault),
    }
}

/// Writes the line of a reconfiguration.
pub fn put_report<K: Sink>(out: &mut K, spec: &Spec, report: &Report) -> Result<(), SinkFault>
    ensures { Prints result (K.state out.old) (K.state out.new) (report_line spec.now report.now) }
{
    put_line(out, &make_report_line(spec, report))
}

/// Writes the end line of a trace with these numbers of frames and reports.
pub fn put_end<K: Sink>(out: &mut K, frames: u32, reports: u32) -> Result<(), SinkFault>
    ensures { Prints result (K.state out.old) (K.state out.new) (end_line frames reports) }
{
    put_line(out, &make_end_line(frames, reports))
}

/// Writes a whole trace: its rows, its reports, and the end line.
pub fn put_trace<K: Sink>(
    out: &mut K,
    spec: &Spec,
    rows: &[Row],
    reports: &[Report],
) -> Result<(), SinkFault>
    requires rows { length rows.now < 2 ^ 32 }
    requires reports { length reports.now < 2 ^ 32 }
    ensures { Prints result (K.state out.old) (K.state out.new) (text_of spec.now rows.now reports.now) }
{
    match put_rows(out, spec, rows) {
        Ok(()) => put_ending(out, spec, rows.len() as u32, reports),
        Err(fault) => Err(fault),
    }
}

fn put_ending<K: Sink>(
    out: &mut K,
    spec: &Spec,
    frames: u32,
    reports: &[Report],
) -> Result<(), SinkFault>
    requires { length reports.now < 2 ^ 32 }
    ensures { Prints result (K.state out.old) (K.state out.new) (ending_text spec.now frames reports.now) }
{
    match put_reports(out, spec, reports) {
        Ok(()) => put_end(out, frames, reports.len() as u32),
        Err(fault) => Err(fault),
    }
}

fn put_rows<K: Sink>(out: &mut K, spec: &Spec, rows: &[Row]) -> Result<(), SinkFault>
    ensures { Prints result (K.state out.old) (K.state out.new) (rows_text spec.now rows.now) }
{
    for row in rows {
        match put_row(out, spec, row) {
            Ok(()) => {}
            Err(fault) => return Err(fault),
        }
    }
    Ok(())
}

fn put_reports<K: Sink>(out: &mut K, spec: &Spec, reports: &[Report]) -> Result<(), SinkFault>
    ensures { Prints result (K.state out.old) (K.state out.new) (reports_text spec.now reports.now) }
{
    for report in reports {
        match put_report(out, spec, report) {
            Ok(()) => {}
            Err(fault) => return Err(fault),
        }
    }
    Ok(())
}

fn put_line<K: Sink>(out: &mut K, line: &Line) -> Result<(), SinkFault>
    ensures { Prints result (K.state out.old) (K.state out.new) line.now }
{
    out.put(line.as_bytes())
}

fn put_apps<K: Sink>(out: &mut K, spec: &Spec, row: &Row) -> Result<(), SinkFault>
    ensures { Prints result (K.state out.old) (K.state out.new) (app_lines spec.now row.now spec.now.apps 0) }
{
    for (a, app) in spec.apps.items().iter().enumerate() {
        match put_app(out, spec, row, app, a) {
            Ok(()) => {}
            Err(fault) => return Err(fault),
        }
    }
    Ok(())
}

fn put_app<K: Sink>(
    out: &mut K,
    spec: &Spec,
    row: &Row,
    app: &AppSpec,
    a: usize,
) -> Result<(), SinkFault>
    requires { a < 8 }
    ensures { Prints result (K.state out.old) (K.state out.new) (app_line_in spec.now row.now app.now a) }
{
    put_line(out, &make_app_line(spec, app, &row.acts[a], &row.areas[a]))
}
