//! The line of a reconfiguration, and the end line of a trace.

ghost use Rattle.std.specs.Prelude.{◌≡◌, ◌+◌, ◌≤◌, ◌++◌, length};
ghost use Rattle.trace_text.specs.Text.{bound_text, length_text, target_text, report_line, end_line};
ghost use Rattle.scram_types.specs.declared.limits.TheConstants.{MAX_LINE_BYTES};

use crate::lines::Line;
use scram_types::{ConfId, Report, Spec};

/// Returns the line of a reconfiguration: its source, its target, its frames, its length and the bound on it.
pub fn make_report_line(spec: &Spec, report: &Report) -> Line
    ensures { result ≡ report_line spec.now report.now }
{
    let mut line = Line::new();
    line.text(b"reconfiguration ");
    line.text(spec.conf_name(report.from).as_bytes());
    add_target(&mut line, spec, report);
    line.text(b"\n");
    line
}

/// Returns the end line of a trace with these numbers of frames and reports.
pub fn make_end_line(frames: u32, reports: u32) -> Line
    ensures { result ≡ end_line frames reports }
{
    let mut line = Line::new();
    line.text(b"end frames ");
    line.number(frames);
    line.text(b" reconfigurations ");
    line.number(reports);
    line.text(b"\n");
    line
}

/// Appends the target of a reconfiguration, its first frame, its end, its length and the bound on it. The text has at
/// most 90 bytes.
pub fn add_target(line: &mut Line, spec: &Spec, report: &Report)
    requires { length line.old + 90 ≤ MAX_LINE_BYTES }
    ensures text { line.new ≡ line.old ++ target_text spec.now report.now report.now.to }
    ensures short { length line.new ≤ length line.old + 90 }
{
    match report.to {
        Some(to) => add_finished(line, spec, report, to),
        None => add_unfinished(line, spec, report),
    }
}

fn add_finished(line: &mut Line, spec: &Spec, report: &Report, to: ConfId)
    requires { length line.old + 90 ≤ MAX_LINE_BYTES }
    ensures text { line.new ≡ line.old ++ target_text spec.now report.now (Some to) }
    ensures short { length line.new ≤ length line.old + 90 }
{
    line.text(b" > ");
    line.text(spec.conf_name(to).as_bytes());
    line.text(b" begin ");
    line.number(report.begin);
    line.text(b" end ");
    line.number(report.end);
    add_length(line, report, spec.bound(report.from, to));
}

fn add_unfinished(line: &mut Line, spec: &Spec, report: &Report)
    requires { length line.old + 90 ≤ MAX_LINE_BYTES }
    ensures text { line.new ≡ line.old ++ target_text spec.now report.now None }
    ensures short { length line.new ≤ length line.old + 90 }
{
    line.text(b" > - begin ");
    line.number(report.begin);
    line.text(b" end -");
    add_length(line, report, spec.greatest_bound(report.from));
}

/// Appends the length of a reconfiguration and the bound on it.
pub fn add_length(line: &mut Line, report: &Report, bound: Option<u32>)
    requires { length line.old + 30 ≤ MAX_LINE_BYTES }
    ensures text { line.new ≡ line.old ++ length_text report.now bound }
    ensures short { length line.new ≤ length line.old + 30 }
{
    line.text(b" took ");
    line.number(report.end.saturating_sub(report.begin));
    line.text(b" of ");
    add_bound(line, bound);
}

/// Appends a bound in frames, or `-` if there is none.
pub fn add_bound(line: &mut Line, bound: Option<u32>)
    requires { length line.old + 10 ≤ MAX_LINE_BYTES }
    ensures text { line.new ≡ line.old ++ bound_text bound }
    ensures short { length line.new ≤ length line.old + 10 }
{
    match bound {
        Some(frames) => line.number(frames),
        None => line.text(b"-"),
    }
}
