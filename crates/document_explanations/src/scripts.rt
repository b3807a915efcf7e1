//! Scripts in files, with explanations of broken rules.

ghost use Rattle.std.specs.Prelude.{◌≡◌, ◌⊎◌, IfOk, string_bytes};
ghost use Rattle.scram_types.specs.declared.limits.TheConstants.{MAX_SCRIPT_BYTES};
ghost use Rattle.form_base.specs.Loads.{IsOutOfMemory};
ghost use Rattle.form_base.specs.Refusals.{answer_of};
ghost use Rattle.form_base.specs.declared.status.TheConstants.{BROKEN_SCRIPT};
ghost use Rattle.form_base.specs.mission_files.Documents.{SaysScript};
ghost use Rattle.document_explanations.specs.Scripts.{BreaksExplainedScript, explained_script_text, long_explained_script};

use crate::explanations::{BrokenDocument, add_explanation};
use crate::first_lines::add_script_line;
use crate::lines::Lines;
use crate::long_documents::make_long_lines;
use crate::rules::DocumentKind;
use fault_script::{ScriptError, ScriptFault, read_script, rule};
use form_base::loads::Document;
use form_base::refusals::{Refusal, RefusalLine, Refused};
use scram_types::limits::MAX_SCRIPT_BYTES;
use scram_types::{NoMemory, Script, Spec};
use std::alloc::Global;

/// The kind of document that encodes a script for the specification `spec`. The refusal of a document that breaks a
/// rule explains the rule.
#[derive(Clone, Copy)]
pub struct ExplainedScript<'a> {
    pub spec: &'a Spec,
}

fn explain<'a>(
    alloc: Global,
    spec: &'a Spec,
    fault: &'a ScriptFault,
    bytes: &'a [u8],
) -> Result<String, NoMemory>
    ensures { IfOk result (λ text. string_bytes text ≡ explained_script_text spec.now fault.now bytes.now) }
{
    let mut lines = Lines::new(alloc);
    add_script_line(&mut lines, fault)?;
    let broken = BrokenDocument {
        kind: DocumentKind::Script,
        spec: Some(spec),
        path: &fault.path,
        bytes,
    };
    add_explanation(alloc, &mut lines, fault.rule, &broken)?;
    Ok(lines.into_text())
}

// Returns the refusal of bytes that break a rule, or the out-of-memory refusal if the lines of that refusal cannot be
// allocated.
fn refuse(alloc: Global, spec: &Spec, fault: &ScriptFault, bytes: &[u8]) -> Refusal
    ensures { (answer_of result ≡ (BROKEN_SCRIPT, explained_script_text spec.now fault.now bytes.now)) ⊎ IsOutOfMemory (answer_of result) }
{
    match explain(alloc, spec, fault, bytes) {
        Ok(text) => Refusal {
            refused: Refused::Script,
            line: RefusalLine::Naming(text),
        },
        Err(NoMemory) => Refusal::out_of_memory(),
    }
}

impl Document<Script> for ExplainedScript<'_> {
    ghost limit = { λ _. MAX_SCRIPT_BYTES };

    ghost long = { λ _. long_explained_script };

    ghost Says = { λ document. SaysScript document.spec.now };

    ghost Breaks = { λ document. BreaksExplainedScript document.spec.now };

    fn limit(&self) -> usize {
        MAX_SCRIPT_BYTES
    }

    fn read(&self, alloc: Global, bytes: &[u8]) -> Result<Script, Refusal> {
        match read_script(alloc, bytes, self.spec) {
            Ok(script) => Ok(script),
            Err(ScriptError::Fault(fault)) => Err(refuse(alloc, self.spec, &fault, bytes)),
            Err(ScriptError::NoMemory) => Err(Refusal::out_of_memory()),
        }
    }

    fn too_long(&self) -> Refusal {
        let lines = make_long_lines(b"refused: script", rule::TOO_LONG, MAX_SCRIPT_BYTES as u32);
        Refusal::new(Refused::Script, lines)
    }
}
