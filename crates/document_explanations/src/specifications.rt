//! Specifications in files, with explanations of broken rules.

ghost use Rattle.std.specs.Prelude.{◌≡◌, ◌⊎◌, IfOk, string_bytes};
ghost use Rattle.scram_types.specs.declared.limits.TheConstants.{MAX_SPECIFICATION_BYTES};
ghost use Rattle.form_base.specs.Loads.{IsOutOfMemory};
ghost use Rattle.form_base.specs.Refusals.{answer_of};
ghost use Rattle.form_base.specs.Specifications.{SaysSpecification};
ghost use Rattle.form_base.specs.declared.status.TheConstants.{BROKEN_SPECIFICATION};
ghost use Rattle.document_explanations.specs.Specifications.{BreaksExplainedSpecification, explained_specification_text, long_explained_specification};

use crate::explanations::{BrokenDocument, add_explanation};
use crate::first_lines::add_specification_line;
use crate::lines::Lines;
use crate::long_documents::make_long_lines;
use crate::rules::DocumentKind;
use form_base::loads::Document;
use form_base::refusals::{Refusal, RefusalLine, Refused};
use scram_types::limits::MAX_SPECIFICATION_BYTES;
use scram_types::{NoMemory, Spec};
use spec_reading::{SpecError, SpecFault, read_spec, rule};
use std::alloc::Global;

/// The kind of document that encodes a specification. The refusal of a document that breaks a rule explains the rule.
#[derive(Clone, Copy)]
pub struct ExplainedSpecification;

fn explain<'a>(alloc: Global, fault: &'a SpecFault, bytes: &'a [u8]) -> Result<String, NoMemory>
    ensures { IfOk result (λ text. string_bytes text ≡ explained_specification_text fault.now bytes.now) }
{
    let mut lines = Lines::new(alloc);
    add_specification_line(&mut lines, fault)?;
    let broken = BrokenDocument {
        kind: DocumentKind::Specification,
        spec: None,
        path: &fault.path,
        bytes,
    };
    add_explanation(alloc, &mut lines, fault.rule, &broken)?;
    Ok(lines.into_text())
}

// Returns the refusal of bytes that break a rule, or the out-of-memory refusal if the lines of that refusal cannot be
// allocated.
fn refuse(alloc: Global, fault: &SpecFault, bytes: &[u8]) -> Refusal
    ensures { (answer_of result ≡ (BROKEN_SPECIFICATION, explained_specification_text fault.now bytes.now)) ⊎ IsOutOfMemory (answer_of result) }
{
    match explain(alloc, fault, bytes) {
        Ok(text) => Refusal {
            refused: Refused::Specification,
            line: RefusalLine::Naming(text),
        },
        Err(NoMemory) => Refusal::out_of_memory(),
    }
}

impl Document<Spec> for ExplainedSpecification {
    ghost limit = { λ _. MAX_SPECIFICATION_BYTES };

    ghost long = { λ _. long_explained_specification };

    ghost Says = { λ _. SaysSpecification };

    ghost Breaks = { λ _. BreaksExplainedSpecification };

    fn limit(&self) -> usize {
        MAX_SPECIFICATION_BYTES
    }

    fn read(&self, alloc: Global, bytes: &[u8]) -> Result<Spec, Refusal> {
        match read_spec(alloc, bytes) {
            Ok(spec) => {
                // From the use of a field, the prover knows that the specification satisfies its invariant.
                let _ = &spec.procs;
                Ok(spec)
            }
            Err(SpecError::Fault(fault)) => Err(refuse(alloc, &fault, bytes)),
            Err(SpecError::NoMemory) => Err(Refusal::out_of_memory()),
        }
    }

    fn too_long(&self) -> Refusal {
        let lines = make_long_lines(
            b"refused: specification",
            rule::TOO_LONG,
            MAX_SPECIFICATION_BYTES as u32,
        );
        Refusal::new(Refused::Specification, lines)
    }
}
