//! The texts that `explain` prints. A text is the line of an accepted specification or of a refusal, followed by
//! further lines.

ghost use Rattle.std.specs.Prelude.{◌≡◌, ◌++◌, IfOk, Some};
ghost use Rattle.fault_script.specs.Assumption.{first_outside};
ghost use Rattle.explain_form.specs.Texts.{accepted_text, refused_text, unassumed_text};

use crate::outsides::make_outside;
use acceptance_breaks::make_breaks;
use coverage_check::Shown;
use fault_script::Outside;
use form_base::lines::make_shown_line;
use form_base::mission_files::make_outside_line;
use idle_parts::make_idle;
use scram_types::{NoMemory, Script, Spec};
use spec_forms::make_accepted_line;
use std::alloc::Global;
use trace_text::lines::Line;

/// The text to print, and the status with which the command ends.
#[derive(Drop)]
pub(crate) struct Explanation {
    pub(crate) code: u8,
    pub(crate) text: Vec<u8>,
}

// Returns the text for an accepted specification: the line of the specification, and the lines of its idle parts.
pub(crate) fn make_accepted(alloc: Global, spec: &Spec) -> Result<Vec<u8>, NoMemory>
    ensures { IfOk result (λ text. text.items ≡ accepted_text spec.now) }
{
    let idle = make_idle(alloc, spec)?;
    join(alloc, &make_accepted_line(spec), &idle)
}

// Returns the text for a specification that is not accepted: the refusal, and the lines for the places at which the
// condition of the refusal does not hold.
pub(crate) fn make_refused(alloc: Global, spec: &Spec, shown: &Shown) -> Result<Vec<u8>, NoMemory>
    ensures { IfOk result (λ text. text.items ≡ refused_text spec.now shown.now) }
{
    let breaks = make_breaks(alloc, spec, shown.condition)?;
    join(alloc, &make_shown_line(spec, shown), &breaks)
}

// Returns the text for a script that violates the failure assumption: the refusal and its reason.
pub(crate) fn make_unassumed(
    alloc: Global,
    spec: &Spec,
    script: &Script,
    outside: &Outside,
) -> Result<Vec<u8>, NoMemory>
    requires { first_outside spec.now script.now ≡ Some outside.now }
    ensures { IfOk result (λ text. text.items ≡ unassumed_text spec.now script.now outside.now) }
{
    let why = make_outside(alloc, spec, script, outside)?;
    join(alloc, &make_outside_line(outside), &why)
}

// Returns the text of `line`, followed by the lines in `further`.
fn join(alloc: Global, line: &Line, further: &[u8]) -> Result<Vec<u8>, NoMemory>
    ensures { IfOk result (λ text. text.items ≡ line.now ++ further.now) }
{
    let mut text = Vec::new(alloc);
    text.extend_from_slice(line.as_bytes())?;
    text.extend_from_slice(further)?;
    Ok(text)
}
