//! How specifications are written.

ghost use Rattle.std.specs.Prelude.{◌≡◌, Ok, Some, IfOk};
ghost use Rattle.serde_json.specs.Read.{read};
ghost use Rattle.reconf_spec.specs.Texts.{spec_data, spec_text};
ghost use Rattle.spec_reading.specs.Documents.{spec_of};
ghost use Rattle.spec_reading.specs.Writable.{IsWritable};

use crate::texts::write_text;
use scram_types::{NoMemory, Spec};
use std::alloc::Global;

/// Returns the canonical text of a specification, which is compact JSON. With demands it is of version 3. Without
/// demands it is of version 1 if the policy is to retarget, and of version 2 if it is to settle. The places of a
/// configuration, the applications of a demand, and sets of processors, applications and configurations are in the
/// order in which the specification lists them. Every other list keeps its order.
///
/// # Errors
///
/// Returns `NoMemory` if memory runs out.
pub fn write_spec(alloc: Global, spec: &Spec) -> Result<Vec<u8>, NoMemory>
    ensures text { IfOk result (λ text. text.items ≡ spec_text spec.now) }
    ensures value { IfOk result (λ text. read text.items ≡ Some (spec_data spec.now)) }
    ensures back { IfOk result (λ text. IsWritable spec.now → spec_of text.items ≡ Ok spec.now) }
{
    // From the use of a field, the prover knows that the specification satisfies its invariant.
    let _ = &spec.procs;
    match write_text(alloc, spec) {
        Ok(text) => Ok(text),
        Err(NoMemory) => Err(NoMemory),
    }
}
