//! The acceptance of a specification that a form has read.

ghost use Rattle.std.specs.Prelude.{◌≡◌, ◌≢◌, IfErr, IfOk, None, OnOk};
ghost use Rattle.coverage_check.specs.Acceptance.{first_refusal};
ghost use Rattle.form_base.specs.declared.status.TheConstants.{UNREAD_FILE};
ghost use Rattle.form_base.specs.Acceptance.{RefusesSpecification};
ghost use Rattle.form_base.specs.Refusals.{answer_of};

use crate::lines::make_shown_line;
use crate::refusals::{Refusal, Refused};
use coverage_check::{AcceptError, Accepted, accept};
use scram_types::Spec;
use std::alloc::Global;

/// Accepts a specification if all conditions, A1 to A13, hold.
///
/// # Errors
///
/// Returns the refusal by the first condition that does not hold, and the out-of-memory refusal if memory runs out.
pub fn accept_specification(alloc: Global, spec: Spec) -> Result<Accepted, Refusal>
    ensures accepted { IfOk result (λ accepted. accepted ≡ spec) }
    ensures holds { OnOk result (first_refusal spec ≡ None) }
    ensures refused { IfErr result (λ refusal. RefusesSpecification spec (answer_of refusal)) }
    ensures known { IfErr result (λ refusal. (answer_of refusal).0 ≢ UNREAD_FILE) }
{
    match accept(alloc, spec) {
        Ok(accepted) => Ok(accepted),
        Err(AcceptError::NotAccepted(spec, shown)) => {
            let line = make_shown_line(&spec, &shown);
            drop(spec);
            Err(Refusal::new(Refused::Acceptance, line))
        }
        Err(AcceptError::NoMemory(spec)) => {
            drop(spec);
            Err(Refusal::out_of_memory())
        }
    }
}
