//! The boxes of reconfigurations and of their bounds, made without allocating.

ghost use Rattle.std.specs.Prelude.{◌≡◌, ◌<◌, ◌≤◌, ◌+◌, ◌++◌, length};
ghost use Rattle.scram_types.specs.declared.limits.TheConstants.{MAX_LINE_BYTES};
ghost use Rattle.picture_form.specs.Reconfigurations.{begin_line, begin_text, bound_rect, end_text, reconfiguration_boxes, report_boxes, report_title, route_text, rows_width, times_text};
ghost use Rattle.picture_form.specs.Sheets.{IsWithinLimits};

use crate::boxes::{add_box, add_number};
use crate::sheets::Sheet;
use flight_facts::margins::bound_of;
use scram_types::{ConfId, Report, Spec};
use trace_text::lines::Line;
use trace_text::report_lines::add_length;
use trace_text::row_lines::add_conf_or_dash;

/// Returns the vertical line at the start of reconfiguration `n`, or the empty line if there is no such
/// reconfiguration or it does not begin in a row.
pub fn make_begin(sheet: Sheet, reports: &[Report], n: usize) -> Line
    requires { IsWithinLimits sheet }
    ensures { result ≡ begin_text sheet reports.now n }
{
    match reports.get(n) {
        Some(report) => if report.begin < sheet.rows {
            make_begin_line(sheet, report.begin)
        } else {
            Line::new()
        },
        None => Line::new(),
    }
}

fn make_begin_line(sheet: Sheet, begin: u32) -> Line
    requires { IsWithinLimits sheet }
    ensures { result ≡ begin_line sheet begin }
{
    let mut line = Line::new();
    line.text(b"<path class=\"begin\" d=\"M");
    add_number(&mut line, sheet.x(u64::from(begin)));
    line.text(b" 44V");
    add_number(&mut line, sheet.bottom());
    line.text(b"\"/>\n");
    line
}

/// Returns the boxes of reconfiguration `n`, or the empty line if there is no such reconfiguration or it does not
/// begin in a row.
pub fn make_reconfiguration(spec: &Spec, sheet: Sheet, reports: &[Report], n: usize) -> Line
    ensures { result ≡ reconfiguration_boxes spec.now sheet reports.now n }
{
    match reports.get(n) {
        Some(report) => if report.begin < sheet.rows {
            make_report(spec, sheet, report)
        } else {
            Line::new()
        },
        None => Line::new(),
    }
}

fn make_report(spec: &Spec, sheet: Sheet, report: &Report) -> Line
    requires { report.now.begin < sheet.rows }
    ensures { result ≡ report_boxes spec.now sheet report.now }
{
    let mut line = Line::new();
    add_bound_rect(&mut line, sheet, report.begin, bound_of(spec, report));
    line.text(b"<rect class=\"reconfiguration\"");
    add_box(
        &mut line,
        sheet.x(u64::from(report.begin)),
        48,
        rows_width(sheet, report.begin, u64::from(report.end)),
    );
    line.text(b"><title>");
    add_title(&mut line, spec, report);
    line.text(b"</title></rect>\n");
    line
}

fn add_bound_rect(line: &mut Line, sheet: Sheet, begin: u32, bound: Option<u32>)
    requires room { length line.old + 120 ≤ MAX_LINE_BYTES }
    requires begin { begin < sheet.rows }
    ensures text { line.new ≡ line.old ++ bound_rect sheet begin bound }
    ensures short { length line.new ≤ length line.old + 120 }
{
    if let Some(bound) = bound {
        line.text(b"<rect class=\"bound\"");
        let last = u64::from(begin) + u64::from(bound);
        add_box(
            line,
            sheet.x(u64::from(begin)),
            48,
            rows_width(sheet, begin, last),
        );
        line.text(b"/>\n");
    }
}

// Returns the width of the rows from `begin` to `last`, inclusive, or to the last row of the flight if that row is
// earlier. The width is 0 if `last` is less than `begin`.
fn rows_width(sheet: Sheet, begin: u32, last: u64) -> u64
    requires { begin < sheet.rows }
    ensures { result ≡ rows_width sheet begin last }
{
    let last = last.min(u64::from(sheet.rows - 1)) as u32;
    sheet.width_of((last + 1).saturating_sub(begin))
}

#[tactic(auto, unfolding(crate::specs::Reconfigurations::report_title))]
fn add_title(line: &mut Line, spec: &Spec, report: &Report)
    requires { length line.old + 130 ≤ MAX_LINE_BYTES }
    ensures text { line.new ≡ line.old ++ report_title spec.now report.now }
    ensures short { length line.new ≤ length line.old + 130 }
{
    add_route(line, spec, report.from, report.to);
    add_times(line, spec, report);
}

#[tactic(auto, unfolding(crate::specs::Reconfigurations::route_text))]
fn add_route(line: &mut Line, spec: &Spec, from: ConfId, to: Option<ConfId>)
    requires { length line.old + 60 ≤ MAX_LINE_BYTES }
    ensures text { line.new ≡ line.old ++ route_text spec.now from to }
    ensures short { length line.new ≤ length line.old + 60 }
{
    line.text(b"reconfiguration ");
    line.text(spec.conf_name(from).as_bytes());
    line.text(b" &gt; ");
    add_conf_or_dash(line, spec, to);
}

#[tactic(auto, unfolding(crate::specs::Reconfigurations::times_text))]
fn add_times(line: &mut Line, spec: &Spec, report: &Report)
    requires { length line.old + 62 ≤ MAX_LINE_BYTES }
    ensures text { line.new ≡ line.old ++ times_text spec.now report.now }
    ensures short { length line.new ≤ length line.old + 62 }
{
    line.text(b" begin ");
    line.number(report.begin);
    line.text(b" end ");
    add_end(line, report);
    add_length(line, report, bound_of(spec, report));
}

fn add_end(line: &mut Line, report: &Report)
    requires { length line.old + 10 ≤ MAX_LINE_BYTES }
    ensures text { line.new ≡ line.old ++ end_text report.now report.now.to }
    ensures short { length line.new ≤ length line.old + 10 }
{
    match report.to {
        Some(_) => line.number(report.end),
        None => line.text(b"-"),
    }
}
