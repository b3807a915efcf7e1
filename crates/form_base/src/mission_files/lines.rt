//! The lines that are printed for a script that is refused, made without allocating.

ghost use Rattle.std.specs.Prelude.{◌≡◌, ◌+◌, ◌≤◌, ◌++◌, length};
ghost use Rattle.scram_types.specs.declared.limits.TheConstants.{MAX_LINE_BYTES};
ghost use Rattle.form_base.specs.mission_files.Lines.{outside_kind_text, outside_line, script_line};

use crate::lines::add_rule;
use fault_script::{Outside, OutsideKind, ScriptFault};
use trace_text::lines::Line;

/// Returns the line for a script document that breaks a rule.
pub fn make_script_line(fault: &ScriptFault) -> Line
    ensures { result ≡ script_line fault.now }
{
    let mut line = Line::new();
    line.text(b"refused: script");
    add_rule(&mut line, fault.rule, &fault.path);
    line.text(b"\n");
    line
}

/// Returns the line for a script that violates the failure assumption. The line has the frame in which the script
/// violates the assumption, and the way in which it does so.
pub fn make_outside_line(outside: &Outside) -> Line
    ensures { result ≡ outside_line outside.now }
{
    let mut line = Line::new();
    line.text(b"refused: outside at frame ");
    line.number(outside.frame);
    line.text(b": ");
    add_outside_kind(&mut line, outside.kind);
    line.text(b"\n");
    line
}

fn add_outside_kind(line: &mut Line, kind: OutsideKind)
    requires { length line.old + 7 ≤ MAX_LINE_BYTES }
    ensures text { line.new ≡ line.old ++ outside_kind_text kind }
    ensures short { length line.new ≤ length line.old + 7 }
{
    match kind {
        OutsideKind::Halts => line.text(b"halts"),
        OutsideKind::Changes => line.text(b"changes"),
    }
}
