//! Specifications as documents in files.

ghost use Rattle.std.specs.Prelude.{◌≡◌};
ghost use Rattle.scram_types.specs.declared.limits.TheConstants.{MAX_SPECIFICATION_BYTES};
ghost use Rattle.form_base.specs.Lines.{specification_line};
ghost use Rattle.form_base.specs.Refusals.{answer_of};
ghost use Rattle.form_base.specs.declared.status.TheConstants.{BROKEN_SPECIFICATION};
ghost use Rattle.form_base.specs.Specifications.{BreaksSpecification, SaysSpecification, long_specification};

use crate::lines::make_specification_line;
use crate::loads::Document;
use crate::refusals::{Refusal, Refused};
use arrayvec::ArrayVec;
use scram_doc::Path;
use scram_types::Spec;
use scram_types::limits::MAX_SPECIFICATION_BYTES;
use spec_reading::{SpecError, SpecFault, read_spec, rule};
use std::alloc::Global;

/// The kind of document that encodes a specification.
#[derive(Clone, Copy)]
pub struct Specification;

fn refuse(fault: &SpecFault) -> Refusal
    ensures { answer_of result ≡ (BROKEN_SPECIFICATION, specification_line fault.now) }
{
    Refusal::new(Refused::Specification, make_specification_line(fault))
}

impl Document<Spec> for Specification {
    ghost limit = { λ _. MAX_SPECIFICATION_BYTES };

    ghost long = { λ _. long_specification };

    ghost Says = { λ _. SaysSpecification };

    ghost Breaks = { λ _. BreaksSpecification };

    fn limit(&self) -> usize {
        MAX_SPECIFICATION_BYTES
    }

    fn read(&self, alloc: Global, bytes: &[u8]) -> Result<Spec, Refusal> {
        match read_spec(alloc, bytes) {
            Ok(spec) => {
                // From the use of a field, the prover knows that the specification satisfies its invariant.
                let _ = &spec.procs;
                Ok(spec)
            }
            Err(SpecError::Fault(fault)) => Err(refuse(&fault)),
            Err(SpecError::NoMemory) => Err(Refusal::out_of_memory()),
        }
    }

    fn too_long(&self) -> Refusal {
        refuse(&SpecFault {
            rule: rule::TOO_LONG,
            path: Path::root(),
            cycle: ArrayVec::new(),
            names: ArrayVec::new(),
        })
    }
}
