//! The line that refuses a trace, made without allocating.

ghost use Rattle.std.specs.Prelude.{◌≡◌};
ghost use Rattle.form_base.specs.trace_files.Lines.{broken_trace_line};

use trace_text::TraceFault;
use trace_text::lines::Line;

/// Returns the line that refuses a trace, with the number of the broken rule and the number of the line that breaks
/// the rule.
pub fn make_broken_trace_line(fault: TraceFault) -> Line
    ensures { result ≡ broken_trace_line fault }
{
    let mut line = Line::new();
    line.text(b"refused: trace rule ");
    line.number(u32::from(fault.rule));
    line.text(b" at line ");
    line.number(fault.line);
    line.text(b"\n");
    line
}
