//! The lines about configurations, the number of environments and the window, made without allocating.

ghost use Rattle.std.specs.Prelude.{◌≡◌, ◌+◌, ◌≤◌, ◌++◌, decimal, length};
ghost use Rattle.scram_types.specs.declared.limits.TheConstants.{MAX_LINE_BYTES};
ghost use Rattle.acceptance_breaks.specs.Lines.{empty_line, indent, load_line, need_line, states_line, twin_line, window_line};

use choice_table::states;
use coverage_check::form::{capacity_of, load_on};
use coverage_check::greatest_bound;
use itoa::Buffer;
use scram_types::limits::MAX_ENVIRONMENTS;
use scram_types::{AppId, ConfId, ProcId, Spec};
use trace_text::lines::Line;

// Returns the line for application `a`, which is on in configuration `c` while application `b`, which `a` needs, is
// off.
pub(crate) fn make_need_line(spec: &Spec, c: ConfId, a: AppId, b: AppId) -> Line
    ensures { result ≡ need_line spec.now c a b }
{
    let mut line = Line::new();
    line.text(b"  in ");
    line.text(spec.conf_name(c).as_bytes());
    line.text(b" ");
    line.text(spec.app_name(a).as_bytes());
    line.text(b" is on and ");
    line.text(spec.app_name(b).as_bytes());
    line.text(b" is off\n");
    line
}

// Returns the line with the number of environments in scope and the maximum number that may be in scope.
pub(crate) fn make_states_line(spec: &Spec) -> Line
    ensures { result ≡ states_line spec.now }
{
    let mut line = Line::new();
    line.text(b"  states ");
    line.number(states(spec));
    line.text(b", at most ");
    line.number(MAX_ENVIRONMENTS);
    line.text(b"\n");
    line
}

// Returns the line for configuration `c`, in which no application is on.
pub(crate) fn make_empty_line(spec: &Spec, c: ConfId) -> Line
    ensures { result ≡ empty_line spec.now c }
{
    let mut line = Line::new();
    line.text(b"  ");
    line.text(spec.conf_name(c).as_bytes());
    line.text(b" has nothing on\n");
    line
}

// Returns the line for configuration `c`, which equals the earlier configuration `d`.
pub(crate) fn make_twin_line(spec: &Spec, c: ConfId, d: ConfId) -> Line
    ensures { result ≡ twin_line spec.now c d }
{
    let mut line = Line::new();
    line.text(b"  ");
    line.text(spec.conf_name(c).as_bytes());
    line.text(b" equals ");
    line.text(spec.conf_name(d).as_bytes());
    line.text(b"\n");
    line
}

// Returns the line with the load that configuration `c` puts on processor `p`, and the processor's capacity.
pub(crate) fn make_load_line(spec: &Spec, c: ConfId, p: ProcId) -> Line
    ensures { result ≡ load_line spec.now c p }
{
    let mut line = Line::new();
    line.text(b"  in ");
    line.text(spec.conf_name(c).as_bytes());
    line.text(b" ");
    line.text(spec.proc_name(p).as_bytes());
    line.text(b" carries ");
    add_wide(&mut line, load_on(spec, c, p.0));
    line.text(b" of ");
    line.number(capacity_of(spec, p.0));
    line.text(b"\n");
    line
}

// Appends a number in decimal.
pub(crate) fn add_wide(line: &mut Line, number: u64)
    requires { length line.old + 20 ≤ MAX_LINE_BYTES }
    ensures text { line.new ≡ line.old ++ decimal number }
    ensures short { length line.new ≤ length line.old + 20 }
{
    let mut buffer = Buffer::new();
    line.text(buffer.format(number).as_bytes());
}

// Returns the two spaces at the start of a line.
pub(crate) fn make_indent() -> Line
    ensures { result ≡ indent }
{
    let mut line = Line::new();
    line.text(b"  ");
    line
}

// Returns the line with the window and the minimum window that suffices.
pub(crate) fn make_window_line(spec: &Spec) -> Line
    ensures { result ≡ window_line spec.now }
{
    let mut line = Line::new();
    line.text(b"  window ");
    line.number(spec.window);
    line.text(b", at least ");
    add_wide(&mut line, u64::from(greatest_bound(spec)) + 1);
    line.text(b"\n");
    line
}
