//! The lines that answer a question about a specification, made without allocation.

ghost use Rattle.std.specs.Prelude.{◌≡◌};
ghost use Rattle.spec_forms.specs.Lines.{accepted_line, bound_line};

use choice_table::states;
use coverage_check::timing::least;
use scram_types::{ConfId, Spec};
use trace_text::lines::Line;
use trace_text::report_lines::add_bound;

/// Returns the line for an accepted specification. It has the number of configurations of the specification, the
/// number of environments in scope, and the number of given bounds.
pub fn make_accepted_line(spec: &Spec) -> Line
    ensures { result ≡ accepted_line spec.now }
{
    let mut line = Line::new();
    line.text(b"accepted: configurations ");
    line.number(spec.confs.items().len() as u32);
    line.text(b" states ");
    line.number(states(spec));
    line.text(b" bounds ");
    line.number(spec.bounds.items().len() as u32);
    line.text(b"\n");
    line
}

/// Returns the line of the bound from `from` to `to`. It has the smallest bound that suffices, in frames, and the
/// given bound, or `-` if no bound is given.
pub fn make_bound_line(spec: &Spec, from: ConfId, to: ConfId) -> Line
    ensures { result ≡ bound_line spec.now from to }
{
    let mut line = Line::new();
    line.text(b"bound ");
    line.text(spec.conf_name(from).as_bytes());
    line.text(b" ");
    line.text(spec.conf_name(to).as_bytes());
    line.text(b" least ");
    line.number(least(spec, from, to));
    line.text(b" given ");
    add_bound(&mut line, spec.bound(from, to));
    line.text(b"\n");
    line
}
