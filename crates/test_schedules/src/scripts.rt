//! The script of a row, and the rules that a row names.

ghost use Rattle.std.specs.Prelude.{IfOk};
ghost use Rattle.fault_script.specs.Fits.{Fits};

use crate::choices::Rule;
use crate::halts::Halt;
use scram_types::{Script, Spec};
use std::alloc::Global;
use std::io::{self, ErrorKind};
use test_kit::{fill, line_after, script_of_text};

/// Returns the script of a row. The numbers of the halt replace `PROC`, `FRAME` and `STEP` in its text, and the frame
/// of the halt plus 2 replaces `RESTART`.
pub(crate) fn script_of(alloc: Global, spec: &Spec, row: &str, halt: Halt) -> io::Result<Script>
    ensures { IfOk result (λ script. Fits spec.now script) }
{
    let text = filled(alloc, row, halt)?;
    script_of_text(alloc, spec, text.as_str())
}

fn filled(alloc: Global, row: &str, halt: Halt) -> io::Result<String> {
    let text = line_after(row, "= ").unwrap_or("");
    let text = fill(alloc, text, "PROC", halt.proc)?;
    let text = fill(alloc, text.as_str(), "FRAME", halt.frame)?;
    let text = fill(alloc, text.as_str(), "STEP", halt.step)?;
    let text = fill(alloc, text.as_str(), "PROC", halt.proc)?;
    fill(
        alloc,
        text.as_str(),
        "RESTART",
        halt.frame.saturating_add(2),
    )
}

/// Returns the rule that `name` names, or an error if it names none.
pub(crate) fn rule_named(name: &str) -> io::Result<Rule> {
    match name {
        "turns" => Ok(Rule::InTurns),
        "least" => Ok(Rule::LeastFirst),
        "greatest" => Ok(Rule::GreatestFirst),
        "kernel" => Ok(Rule::KernelFirst),
        _ => Err(ErrorKind::InvalidInput.into()),
    }
}
