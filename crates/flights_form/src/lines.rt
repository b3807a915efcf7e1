//! The lines that are printed for flights, made without allocating.

ghost use Rattle.std.specs.Prelude.{◌≡◌, ◌+◌, ◌≤◌, ◌++◌, length};
ghost use Rattle.scram_types.specs.declared.limits.TheConstants.{MAX_LINE_BYTES};
ghost use Rattle.flights_form.specs.Lines.{flown_line, gap_total, greatest_text, margin_total, refused_start, totals_line, worst_text};

use crate::facts::{AppGap, FlightFacts, Margin};
use crate::totals::{FlightGap, FlightMargin, Totals};
use scram_types::Spec;
use trace_text::lines::Line;
use trace_text::report_lines::add_target;

/// Returns the line for flight `k`, which has the facts `facts`.
pub fn make_flown_line(spec: &Spec, k: u32, facts: &FlightFacts) -> Line
    ensures { result ≡ flown_line spec.now k facts.now }
{
    let mut line = Line::new();
    line.text(b"flight ");
    line.number(k);
    line.text(b" frames ");
    line.number(facts.frames);
    line.text(b" reconfigurations ");
    line.number(facts.reconfigurations);
    line.text(b" unfinished ");
    line.number(facts.unfinished);
    add_greatest(&mut line, spec, facts.gap);
    add_worst(&mut line, spec, &facts.margin);
    line.text(b"\n");
    line
}

/// Returns the text that precedes the refusal in the line of flight `k`.
pub fn make_refused_start(k: u32) -> Line
    ensures { result ≡ refused_start k }
{
    let mut line = Line::new();
    line.text(b"flight ");
    line.number(k);
    line.text(b" ");
    line
}

/// Returns the line of totals, which is printed last. It has the number of lines, the number of refused lines, and
/// the minimum margin and the longest gap, if there are any.
pub fn make_totals_line(totals: &Totals) -> Line
    ensures { result ≡ totals_line totals.now }
{
    let mut line = Line::new();
    line.text(b"flights ");
    line.number(totals.lines);
    line.text(b" refused ");
    line.number(totals.refused);
    add_margin_total(&mut line, &totals.margin);
    add_gap_total(&mut line, totals.gap);
    line.text(b"\n");
    line
}

fn add_greatest(line: &mut Line, spec: &Spec, gap: Option<AppGap>)
    requires { length line.old + 46 ≤ MAX_LINE_BYTES }
    ensures text { line.new ≡ line.old ++ greatest_text spec.now gap }
    ensures short { length line.new ≤ length line.old + 46 }
{
    match gap {
        Some(gap) => {
            line.text(b" gap ");
            line.number(gap.gap.frames);
            line.text(b" ");
            line.text(spec.app_name(gap.app).as_bytes());
            line.text(b" at ");
            line.number(gap.gap.at);
        }
        None => line.text(b" gap 0"),
    }
}

fn add_worst(line: &mut Line, spec: &Spec, margin: &Option<Margin>)
    requires { length line.old + 141 ≤ MAX_LINE_BYTES }
    ensures text { line.new ≡ line.old ++ worst_text spec.now margin.now }
    ensures short { length line.new ≤ length line.old + 141 }
{
    match margin {
        Some(margin) => {
            line.text(b" worst ");
            line.text(spec.conf_name(margin.report.from).as_bytes());
            add_target(line, spec, &margin.report);
            line.text(b" margin ");
            line.signed(&margin.frames);
        }
        None => line.text(b" worst -"),
    }
}

fn add_margin_total(line: &mut Line, margin: &Option<FlightMargin>)
    requires { length line.old + 49 ≤ MAX_LINE_BYTES }
    ensures text { line.new ≡ line.old ++ margin_total margin.now }
    ensures short { length line.new ≤ length line.old + 49 }
{
    match margin {
        Some(margin) => {
            line.text(b" margin ");
            line.signed(&margin.frames);
            line.text(b" in flight ");
            line.number(margin.flight);
        }
        None => {}
    }
}

fn add_gap_total(line: &mut Line, gap: Option<FlightGap>)
    requires { length line.old + 36 ≤ MAX_LINE_BYTES }
    ensures text { line.new ≡ line.old ++ gap_total gap }
    ensures short { length line.new ≤ length line.old + 36 }
{
    match gap {
        Some(gap) => {
            line.text(b" gap ");
            line.number(gap.frames);
            line.text(b" in flight ");
            line.number(gap.flight);
        }
        None => {}
    }
}
