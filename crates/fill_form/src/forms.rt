//! The form `fill`, which prints a filled-in specification.

ghost use Rattle.std.specs.Prelude.{◌≡◌, ◌∷◌, ◌++◌, [], IfOk, List, None, codes};
ghost use Rattle.scram_types.specs.Specification.{IsSpec};
ghost use Rattle.coverage_check.specs.Form.{state_refusal};
ghost use Rattle.spec_reading.specs.Writable.{IsWritable};
ghost use Rattle.reconf_spec.specs.Texts.{spec_text};
ghost use Rattle.form_base.specs.Answers.{Gives};
ghost use Rattle.form_base.specs.Endings.{Ends, IsTaken, Prepares, PreparesWithoutFiles};
ghost use Rattle.form_base.specs.Lines.{shown_line};
ghost use Rattle.form_base.specs.Refusals.{answer_of};
ghost use Rattle.form_base.specs.declared.status.TheConstants.{ANSWERED, NOT_ACCEPTED};
ghost use Rattle.fill_form.specs.Answers.{FillAnswers, GivesText, fill_answer};
ghost use Rattle.fill_form.specs.Filling.{with_times};
ghost use Rattle.fill_form.specs.Refusing.{IsFilling, fill_refusal};

use crate::filling::{Filling, find_filling};
use coverage_check::{Shown, refuse_states};
use form_base::lines::make_shown_line;
use form_base::loads::load;
use form_base::printing::{print_refusal, print_text};
use form_base::refusals::{Refusal, Refused};
use form_base::specifications::Specification;
use form_base::status::{ANSWERED, Status};
use reconf_spec::write_spec;
use scram_io::{Files, Sink};
use scram_types::{Bound, List, NoMemory, Spec};
use std::alloc::Global;

/// Prints the specification in a file with sufficient bounds and a sufficient window. If too many environments are in
/// scope, or a bound or the window would be too long, the refusal is printed instead.
pub fn fill<F: Files, K: Sink>(
    alloc: Global,
    specification: &str,
    files: &mut F,
    out: &mut K,
) -> Status
    ensures { Ends (FillAnswers specification.now) (specification.now ∷ [])
        (F.state files.old) (F.state files.new) (IsTaken (K.state out.old) (K.state out.new) result.code) }
{
    match read_filled(alloc, specification, files) {
        Ok(text) => print_text(out, ANSWERED, &text),
        Err(refusal) => print_refusal(out, &refusal),
    }
}

/// Reads the specification and returns the text of the filled-in specification, or the refusal.
fn read_filled<F: Files>(
    alloc: Global,
    specification: &str,
    files: &mut F,
) -> Result<Vec<u8>, Refusal>
    ensures { Prepares (FillAnswers specification.now) GivesText (specification.now ∷ []) (F.state files.old) (F.state files.new) result }
{
    match load(alloc, &Specification, specification, files) {
        Ok(spec) => fill_in(alloc, spec),
        Err(refusal) => Err(refusal),
    }
}

fn fill_in(alloc: Global, spec: Spec) -> Result<Vec<u8>, Refusal>
    requires { IsWritable spec }
    ensures { PreparesWithoutFiles (Gives (fill_answer spec (fill_refusal spec))) GivesText result }
{
    if let Some(shown) = refuse_states(&spec) {
        return Err(refuse(spec, &shown));
    }
    match find_filling(alloc, &spec) {
        Ok(filling) => write_filled(alloc, spec, filling),
        Err(NoMemory) => {
            drop(spec);
            Err(Refusal::out_of_memory())
        }
    }
}

// Returns the refusal of a specification for the reason `shown`.
fn refuse(spec: Spec, shown: &Shown) -> Refusal
    ensures { answer_of result ≡ (NOT_ACCEPTED, shown_line spec shown.now) }
{
    let line = make_shown_line(&spec, shown);
    drop(spec);
    Refusal::new(Refused::Acceptance, line)
}

// Returns the text of the specification with the bounds of the filling and a sufficient window, or the filling's
// refusal.
fn write_filled(alloc: Global, spec: Spec, filling: Filling) -> Result<Vec<u8>, Refusal>
    requires writable { IsWritable spec }
    requires few { state_refusal spec ≡ None }
    requires filling { IsFilling spec filling }
    ensures { PreparesWithoutFiles (Gives (fill_answer spec (fill_refusal spec))) GivesText result }
{
    match filling.refusal {
        Some(shown) => {
            drop(filling);
            Err(refuse(spec, &shown))
        }
        None => {
            let window = spec.window.max(filling.greatest + 1);
            write_line(alloc, with_times(spec, filling.bounds, window))
        }
    }
}

// Returns the specification with `bounds` and `window` in place of its bounds and its window.
fn with_times(spec: Spec, bounds: Vec<Bound>, window: u32) -> Spec
    requires { IsSpec (with_times spec bounds.items window) }
    ensures { result ≡ with_times spec bounds.items window }
{
    let mut spec = spec;
    spec.bounds = List::of(bounds);
    spec.window = window;
    spec
}

// Returns the line that holds the canonical text of a specification.
fn write_line(alloc: Global, spec: Spec) -> Result<Vec<u8>, Refusal>
    ensures { PreparesWithoutFiles (Gives (ANSWERED, spec_text spec ++ codes "\n")) GivesText result }
{
    let text = make_line(alloc, &spec);
    drop(spec);
    match text {
        Ok(text) => Ok(text),
        Err(NoMemory) => Err(Refusal::out_of_memory()),
    }
}

fn make_line(alloc: Global, spec: &Spec) -> Result<Vec<u8>, NoMemory>
    ensures { IfOk result (λ text. text.items ≡ spec_text spec.now ++ codes "\n") }
{
    let mut text = write_spec(alloc, spec)?;
    text.push(b'\n')?;
    Ok(text)
}
