//! The form `picture`, which prints a trace as a picture.

ghost use Rattle.std.specs.Prelude.{◌≡◌, ◌<◌, ◌≤◌, ◌+◌, ◌*◌, ◌∷◌, ◌^◌, [], length};
ghost use Rattle.scram_io.specs.Outside.{Prints};
ghost use Rattle.form_base.specs.Endings.{Ends, IsTaken};
ghost use Rattle.form_base.specs.Texts.{texts_below};
ghost use Rattle.form_base.specs.trace_files.Looks.{ViewAnswers};
ghost use Rattle.picture_form.specs.Picture.{body_text, curves_text, foot_text, front_text, grid_text, head_text, lanes_and_foot, legend_line, legend_text, open_line, picture_text, sheet_text, stable_spans, tick_line, tick_text, ticks_text, top_text};
ghost use Rattle.picture_form.specs.Reconfigurations.{begin_text, reconfiguration_boxes};
ghost use Rattle.picture_form.specs.Sheets.{IsWithinLimits};
ghost use Rattle.picture_form.specs.Styles.{part_text};

use crate::boxes::add_number;
use crate::lanes::{put_lanes, put_spans};
use crate::quantities::put_curves;
use crate::reconfigurations::{make_begin, make_reconfiguration};
use crate::sheets::{Sheet, sheet_of};
use crate::spans::Strip;
use crate::styles::{Part, part_text};
use flight_facts::spans::Lane;
use form_base::printing::{print_refusal, status_after};
use form_base::status::{ANSWERED, Status};
use form_base::trace_files::{TraceFiles, read_flight};
use scram_io::{Files, Sink, SinkFault};
use scram_types::{Report, Row, Spec};
use std::alloc::Global;
use trace_text::lines::Line;

/// Prints the trace in a file as a picture.
pub fn picture_form<F: Files, K: Sink>(
    alloc: Global,
    named: TraceFiles<'_>,
    files: &mut F,
    out: &mut K,
) -> Status
    ensures { Ends (ViewAnswers picture_text named.entry.specification.now named.entry.trace.now) (named.entry.specification.now ∷ named.entry.trace.now ∷ [])
        (F.state files.old) (F.state files.new) (IsTaken (K.state out.old) (K.state out.new) result.code) }
{
    match read_flight(alloc, named, files) {
        Ok(flight) => {
            let rows = flight.flown.rows.items();
            let put = put_picture(out, &flight.spec, rows, flight.flown.reports.items());
            drop(flight);
            status_after(put, ANSWERED)
        }
        Err(refusal) => print_refusal(out, &refusal),
    }
}

fn put_picture<K: Sink>(
    out: &mut K,
    spec: &Spec,
    rows: &[Row],
    reports: &[Report],
) -> Result<(), SinkFault>
    requires { length rows.now < 2 ^ 32 }
    ensures { Prints result (K.state out.old) (K.state out.new) (picture_text spec.now rows.now reports.now) }
{
    put_sheet(out, spec, sheet_of(spec, rows), rows, reports)
}

fn put_sheet<K: Sink>(
    out: &mut K,
    spec: &Spec,
    sheet: Sheet,
    rows: &[Row],
    reports: &[Report],
) -> Result<(), SinkFault>
    requires sheet { IsWithinLimits sheet }
    requires rows { length rows.now < 2 ^ 32 }
    ensures { Prints result (K.state out.old) (K.state out.new) (sheet_text spec.now sheet rows.now reports.now) }
{
    match put_head(out, sheet) {
        Ok(()) => put_body(out, spec, sheet, rows, reports),
        Err(fault) => Err(fault),
    }
}

fn put_head<K: Sink>(out: &mut K, sheet: Sheet) -> Result<(), SinkFault>
    requires { IsWithinLimits sheet }
    ensures { Prints result (K.state out.old) (K.state out.new) (head_text sheet) }
{
    match out.put(make_open_line(sheet).as_bytes()) {
        Ok(()) => put_part(out, Part::Style),
        Err(fault) => Err(fault),
    }
}

fn make_open_line(sheet: Sheet) -> Line
    requires { IsWithinLimits sheet }
    ensures { result ≡ open_line sheet }
{
    let mut line = Line::new();
    line.text(b"<svg xmlns=\"http://www.w3.org/2000/svg\" width=\"");
    add_number(&mut line, sheet.width());
    line.text(b"\" height=\"");
    add_number(&mut line, sheet.height());
    line.text(b"\" viewBox=\"0 0 ");
    add_number(&mut line, sheet.width());
    line.text(b" ");
    add_number(&mut line, sheet.height());
    line.text(b"\">\n");
    line
}

fn put_body<K: Sink>(
    out: &mut K,
    spec: &Spec,
    sheet: Sheet,
    rows: &[Row],
    reports: &[Report],
) -> Result<(), SinkFault>
    requires sheet { IsWithinLimits sheet }
    requires rows { length rows.now < 2 ^ 32 }
    ensures { Prints result (K.state out.old) (K.state out.new) (body_text spec.now sheet rows.now reports.now) }
{
    match put_grid(out, sheet, reports) {
        Ok(()) => put_front(out, spec, sheet, rows, reports),
        Err(fault) => Err(fault),
    }
}

// Writes the vertical lines behind the lanes: the ticks, and the starts of the reconfigurations.
fn put_grid<K: Sink>(out: &mut K, sheet: Sheet, reports: &[Report]) -> Result<(), SinkFault>
    requires { IsWithinLimits sheet }
    ensures { Prints result (K.state out.old) (K.state out.new) (grid_text sheet reports.now) }
{
    match put_ticks(out, sheet) {
        Ok(()) => put_begins(out, sheet, reports),
        Err(fault) => Err(fault),
    }
}

fn put_ticks<K: Sink>(out: &mut K, sheet: Sheet) -> Result<(), SinkFault>
    requires { IsWithinLimits sheet }
    ensures { Prints result (K.state out.old) (K.state out.new) (ticks_text sheet) }
{
    for j in 0..sheet.ticks() {
        match out.put(make_tick(sheet, j).as_bytes()) {
            Ok(()) => {}
            Err(fault) => return Err(fault),
        }
    }
    Ok(())
}

fn make_tick(sheet: Sheet, j: u32) -> Line
    requires { IsWithinLimits sheet }
    ensures { result ≡ tick_text sheet j }
{
    make_tick_line(sheet, u64::from(j) * u64::from(sheet.tick()))
}

fn make_tick_line(sheet: Sheet, k: u64) -> Line
    requires sheet { IsWithinLimits sheet }
    requires row { k ≤ 2 ^ 40 }
    ensures { result ≡ tick_line sheet k }
{
    let mut line = Line::new();
    line.text(b"<path class=\"tick\" d=\"M");
    add_number(&mut line, sheet.x(k));
    line.text(b" 44V");
    add_number(&mut line, sheet.bottom());
    line.text(b"\"/><text class=\"axis\" x=\"");
    add_number(&mut line, sheet.x(k));
    line.text(b"\" y=\"");
    add_number(&mut line, sheet.bottom() + 14);
    line.text(b"\">");
    add_number(&mut line, k);
    line.text(b"</text>\n");
    line
}

fn put_begins<K: Sink>(out: &mut K, sheet: Sheet, reports: &[Report]) -> Result<(), SinkFault>
    requires { IsWithinLimits sheet }
    ensures { Prints result (K.state out.old) (K.state out.new) (texts_below (begin_text sheet reports.now) (length reports.now)) }
{
    for n in 0..reports.len() {
        match out.put(make_begin(sheet, reports, n).as_bytes()) {
            Ok(()) => {}
            Err(fault) => return Err(fault),
        }
    }
    Ok(())
}

fn put_front<K: Sink>(
    out: &mut K,
    spec: &Spec,
    sheet: Sheet,
    rows: &[Row],
    reports: &[Report],
) -> Result<(), SinkFault>
    requires sheet { IsWithinLimits sheet }
    requires rows { length rows.now < 2 ^ 32 }
    ensures { Prints result (K.state out.old) (K.state out.new) (front_text spec.now sheet rows.now reports.now) }
{
    match put_top(out, spec, sheet, rows, reports) {
        Ok(()) => put_lanes_and_foot(out, spec, sheet, rows),
        Err(fault) => Err(fault),
    }
}

// Writes the first two lanes, which show configurations and reconfigurations.
fn put_top<K: Sink>(
    out: &mut K,
    spec: &Spec,
    sheet: Sheet,
    rows: &[Row],
    reports: &[Report],
) -> Result<(), SinkFault>
    requires rows { length rows.now < 2 ^ 32 }
    ensures { Prints result (K.state out.old) (K.state out.new) (top_text spec.now sheet rows.now reports.now) }
{
    match put_stable_spans(out, spec, sheet, rows) {
        Ok(()) => put_reconfigurations(out, spec, sheet, reports),
        Err(fault) => Err(fault),
    }
}

fn put_stable_spans<K: Sink>(
    out: &mut K,
    spec: &Spec,
    sheet: Sheet,
    rows: &[Row],
) -> Result<(), SinkFault>
    requires rows { length rows.now < 2 ^ 32 }
    ensures { Prints result (K.state out.old) (K.state out.new) (stable_spans spec.now sheet rows.now) }
{
    match put_part(out, Part::Names) {
        Ok(()) => put_spans(
            out,
            spec,
            sheet,
            rows,
            Strip {
                lane: Lane::Configuration,
                y: 20,
            },
        ),
        Err(fault) => Err(fault),
    }
}

fn put_reconfigurations<K: Sink>(
    out: &mut K,
    spec: &Spec,
    sheet: Sheet,
    reports: &[Report],
) -> Result<(), SinkFault>
    ensures { Prints result (K.state out.old) (K.state out.new) (texts_below (reconfiguration_boxes spec.now sheet reports.now) (length reports.now)) }
{
    for n in 0..reports.len() {
        match out.put(make_reconfiguration(spec, sheet, reports, n).as_bytes()) {
            Ok(()) => {}
            Err(fault) => return Err(fault),
        }
    }
    Ok(())
}

fn put_lanes_and_foot<K: Sink>(
    out: &mut K,
    spec: &Spec,
    sheet: Sheet,
    rows: &[Row],
) -> Result<(), SinkFault>
    requires sheet { IsWithinLimits sheet }
    requires rows { length rows.now < 2 ^ 32 }
    ensures { Prints result (K.state out.old) (K.state out.new) (lanes_and_foot spec.now sheet rows.now) }
{
    match put_lanes(out, spec, sheet, rows) {
        Ok(()) => put_foot(out, sheet, rows),
        Err(fault) => Err(fault),
    }
}

// Writes the part of the picture below the lanes: the curves and the legend.
fn put_foot<K: Sink>(out: &mut K, sheet: Sheet, rows: &[Row]) -> Result<(), SinkFault>
    requires { IsWithinLimits sheet }
    ensures { Prints result (K.state out.old) (K.state out.new) (foot_text sheet rows.now) }
{
    match put_curves(out, sheet, rows) {
        Ok(()) => put_legend(out, sheet),
        Err(fault) => Err(fault),
    }
}

fn put_part<K: Sink>(out: &mut K, part: Part) -> Result<(), SinkFault>
    ensures { Prints result (K.state out.old) (K.state out.new) (part_text part) }
{
    out.put(part_text(part).as_bytes())
}

// Writes the legend, followed by the end of the document.
fn put_legend<K: Sink>(out: &mut K, sheet: Sheet) -> Result<(), SinkFault>
    requires { IsWithinLimits sheet }
    ensures { Prints result (K.state out.old) (K.state out.new) (legend_text sheet) }
{
    match out.put(make_legend_line(sheet).as_bytes()) {
        Ok(()) => put_part(out, Part::Legend),
        Err(fault) => Err(fault),
    }
}

fn make_legend_line(sheet: Sheet) -> Line
    requires { IsWithinLimits sheet }
    ensures { result ≡ legend_line sheet }
{
    let mut line = Line::new();
    line.text(b"<g transform=\"translate(0 ");
    add_number(&mut line, sheet.bottom() + 28);
    line.text(b")\">\n");
    line
}
