//! The form `check`, which reports whether a specification is accepted.

ghost use Rattle.std.specs.Prelude.{◌∷◌, [], List, ℕ};
ghost use Rattle.coverage_check.specs.Acceptance.{first_refusal};
ghost use Rattle.form_base.specs.Answers.{Gives};
ghost use Rattle.form_base.specs.Endings.{Ends, IsTaken, Prepares, PreparesWithoutFiles};
ghost use Rattle.form_base.specs.declared.status.TheConstants.{ANSWERED};
ghost use Rattle.spec_forms.specs.Answers.{CheckAnswers, check_answer};

use crate::lines::make_accepted_line;
use form_base::acceptance::accept_specification;
use form_base::loads::load;
use form_base::printing::{print_refusal, print_text};
use form_base::refusals::Refusal;
use form_base::specifications::Specification;
use form_base::status::{ANSWERED, Status};
use scram_io::{Files, Sink};
use scram_types::Spec;
use std::alloc::Global;
use trace_text::lines::Line;

/// Prints whether the specification in a file is accepted. If it is accepted, the line has the number of
/// configurations, the number of environments in scope, and the number of given bounds. Otherwise, the line is the
/// refusal.
pub fn check<F: Files, K: Sink>(
    alloc: Global,
    specification: &str,
    files: &mut F,
    out: &mut K,
) -> Status
    ensures { Ends (CheckAnswers specification.now) (specification.now ∷ [])
        (F.state files.old) (F.state files.new) (IsTaken (K.state out.old) (K.state out.new) result.code) }
{
    match read_line(alloc, specification, files) {
        Ok(line) => print_text(out, ANSWERED, line.as_bytes()),
        Err(refusal) => print_refusal(out, &refusal),
    }
}

/// Reads the specification and returns the line for an accepted specification, or the refusal.
fn read_line<F: Files>(alloc: Global, specification: &str, files: &mut F) -> Result<Line, Refusal>
    ensures { Prepares (CheckAnswers specification.now) (λ (line : List ℕ). Gives (ANSWERED, line)) (specification.now ∷ [])
        (F.state files.old) (F.state files.new) result }
{
    match load(alloc, &Specification, specification, files) {
        Ok(spec) => accepted_line_of(alloc, spec),
        Err(refusal) => Err(refusal),
    }
}

fn accepted_line_of(alloc: Global, spec: Spec) -> Result<Line, Refusal>
    ensures { PreparesWithoutFiles (Gives (check_answer spec (first_refusal spec))) (λ (line : List ℕ). Gives (ANSWERED, line)) result }
{
    match accept_specification(alloc, spec) {
        Ok(accepted) => {
            let line = make_accepted_line(accepted.spec());
            drop(accepted);
            Ok(line)
        }
        Err(refusal) => Err(refusal),
    }
}
