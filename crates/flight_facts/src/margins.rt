//! The margin of a reconfiguration: its bound minus its length.

ghost use Rattle.std.specs.Prelude.{◌≡◌, ◌≤◌, ◌+◌, ◌++◌, length};
ghost use Rattle.scram_types.specs.declared.limits.TheConstants.{MAX_LINE_BYTES};
ghost use Rattle.flight_facts.specs.Margins.{bound_of, margin_of, margin_text};

use scram_types::{Report, Spec};
use trace_text::lines::Line;

/// Returns the bound on a reconfiguration, in frames, or `None` if none is given. For an unfinished reconfiguration,
/// the bound is the greatest bound from its source.
pub fn bound_of(spec: &Spec, report: &Report) -> Option<u32>
    ensures { result ≡ bound_of spec.now report.now }
{
    match report.to {
        Some(to) => spec.bound(report.from, to),
        None => spec.greatest_bound(report.from),
    }
}

/// Appends the margin of a reconfiguration: its bound minus its length, in frames, or `-` if there is no bound.
pub fn add_margin(line: &mut Line, spec: &Spec, report: &Report)
    requires { length line.old + 20 ≤ MAX_LINE_BYTES }
    ensures text { line.new ≡ line.old ++ margin_of spec.now report.now }
    ensures short { length line.new ≤ length line.old + 20 }
{
    let took = report.end.saturating_sub(report.begin);
    add_margin_below(line, bound_of(spec, report), took);
}

fn add_margin_below(line: &mut Line, bound: Option<u32>, took: u32)
    requires { length line.old + 20 ≤ MAX_LINE_BYTES }
    ensures text { line.new ≡ line.old ++ margin_text bound took }
    ensures short { length line.new ≤ length line.old + 20 }
{
    match bound {
        Some(bound) => {
            let margin = i64::from(bound) - i64::from(took);
            line.signed(&margin);
        }
        None => line.text(b"-"),
    }
}
