//! Scripts in files.

ghost use Rattle.std.specs.Prelude.{◌≡◌};
ghost use Rattle.scram_types.specs.declared.limits.TheConstants.{MAX_SCRIPT_BYTES};
ghost use Rattle.form_base.specs.Refusals.{answer_of};
ghost use Rattle.form_base.specs.declared.status.TheConstants.{BROKEN_SCRIPT};
ghost use Rattle.form_base.specs.mission_files.Documents.{BreaksScript, SaysScript, long_script};
ghost use Rattle.form_base.specs.mission_files.Lines.{script_line};

use crate::loads::Document;
use crate::mission_files::lines::make_script_line;
use crate::refusals::{Refusal, Refused};
use fault_script::{ScriptError, ScriptFault, read_script};
use scram_doc::Path;
use scram_types::limits::MAX_SCRIPT_BYTES;
use scram_types::{Script, Spec};
use std::alloc::Global;

/// The kind of document that holds a script for a specification.
#[derive(Clone, Copy)]
pub struct ScriptDocument<'a> {
    pub spec: &'a Spec,
}

fn refuse_script(fault: &ScriptFault) -> Refusal
    ensures { answer_of result ≡ (BROKEN_SCRIPT, script_line fault.now) }
{
    Refusal::new(Refused::Script, make_script_line(fault))
}

impl Document<Script> for ScriptDocument<'_> {
    ghost limit = { λ _. MAX_SCRIPT_BYTES };

    ghost long = { λ _. long_script };

    ghost Says = { λ document. SaysScript document.spec.now };

    ghost Breaks = { λ document. BreaksScript document.spec.now };

    fn limit(&self) -> usize {
        MAX_SCRIPT_BYTES
    }

    fn read(&self, alloc: Global, bytes: &[u8]) -> Result<Script, Refusal> {
        match read_script(alloc, bytes, self.spec) {
            Ok(script) => Ok(script),
            Err(ScriptError::Fault(fault)) => Err(refuse_script(&fault)),
            Err(ScriptError::NoMemory) => Err(Refusal::out_of_memory()),
        }
    }

    fn too_long(&self) -> Refusal {
        refuse_script(&ScriptFault::new(fault_script::rule::TOO_LONG, &Path::root()))
    }
}
