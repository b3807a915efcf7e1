//! Writing script documents.

ghost use Rattle.std.specs.Prelude.{◌≡◌, ◌≤◌, Ok, Some, IfOk, length};
ghost use Rattle.serde_json.specs.Read.{read};
ghost use Rattle.serde_json.specs.View.{view};
ghost use Rattle.fault_script.specs.Fits.{Fits};
ghost use Rattle.fault_script.specs.Reading.{script_of};
ghost use Rattle.fault_script.specs.Texts.{change_data, halt_data, new_value_name, restart_data, script_data, script_text, version_for};

use scram_doc::{Object, Writes};
use scram_types::{Change, HaltAt, NoMemory, RestartAt, Script, Spec};
use serde_json::Value;
use std::alloc::{AllocError, Global};

/// A writer of the items of a script's lists.
#[derive(Clone, Copy)]
struct Writer<'a> {
    spec: &'a Spec,
}

/// Returns the name of the value that a change sets, at most 16 bytes, or an empty string if there is no such factor
/// or value.
pub fn new_value_name<'a>(spec: &'a Spec, change: &Change) -> &'a str
    ensures name { result.now ≡ new_value_name spec.now change.now }
    ensures short { length result.now ≤ 16 }
{
    match spec.factors.items().get(usize::from(change.factor.0)) {
        Some(factor) => factor.value_name(change.value),
        None => "",
    }
}

impl Writes<Change> for Writer<'_> {
    ghost written = { λ writer. change_data writer.spec.now };

    fn value(&self, alloc: Global, change: &Change) -> Result<Value, AllocError> {
        let factor = self.spec.factor_name(change.factor);
        let value = new_value_name(self.spec, change);
        let object = Object::new(alloc)
            .count("frame", change.frame)?
            .text("factor", factor)?
            .text("value", value)?;
        Ok(object.into_value())
    }
}

impl Writes<HaltAt> for Writer<'_> {
    ghost written = { λ writer. halt_data writer.spec.now };

    fn value(&self, alloc: Global, halt: &HaltAt) -> Result<Value, AllocError> {
        let proc = self.spec.proc_name(halt.proc);
        let object = Object::new(alloc)
            .text("processor", proc)?
            .count("frame", halt.frame)?
            .count("step", u32::from(halt.step))?;
        Ok(object.into_value())
    }
}

impl Writes<RestartAt> for Writer<'_> {
    ghost written = { λ writer. restart_data writer.spec.now };

    fn value(&self, alloc: Global, restart: &RestartAt) -> Result<Value, AllocError> {
        let proc = self.spec.proc_name(restart.proc);
        let object = Object::new(alloc)
            .text("processor", proc)?
            .count("frame", restart.frame)?;
        Ok(object.into_value())
    }
}

// Returns the number of the version in which a script with these restarts is written.
fn version_for(restarts: &[RestartAt]) -> u32
    ensures { result ≡ version_for restarts.now }
{
    match restarts {
        [] => 1,
        [_, ..] => 2,
    }
}

fn make_script(alloc: Global, spec: &Spec, script: &Script) -> Result<Value, AllocError>
    ensures { IfOk result (λ v. view v ≡ script_data spec.now script.now) }
{
    let writer = Writer { spec };
    let restarts = script.restarts.items();
    let object = Object::new(alloc)
        .count("scram", version_for(restarts))?
        .count("frames", script.frames)?
        .list("changes", &writer, script.changes.items())?
        .list("halts", &writer, script.halts.items())?;
    match restarts {
        [] => Ok(object.into_value()),
        [_, ..] => Ok(object.list("restarts", &writer, restarts)?.into_value()),
    }
}

/// Returns the canonical text of a script: compact JSON, in the first version if the script has no restart, else in the
/// second. If the script fits the specification, the same script is read back from the text.
///
/// # Errors
///
/// Returns `NoMemory` if memory runs out.
pub fn write_script(alloc: Global, script: &Script, spec: &Spec) -> Result<Vec<u8>, NoMemory>
    ensures text { IfOk result (λ text. text.items ≡ script_text spec.now script.now) }
    ensures value { IfOk result (λ text. read text.items ≡ Some (script_data spec.now script.now)) }
    ensures back { IfOk result (λ text. Fits spec.now script.now → script_of spec.now text.items ≡ Ok script.now) }
{
    // From the use of a field, the prover knows that the specification satisfies its invariant.
    let _ = &spec.procs;
    let Ok(value) = make_script(alloc, spec, script) else {
        return Err(NoMemory);
    };
    match value.to_vec(alloc) {
        Ok(text) => Ok(text),
        Err(_) => Err(NoMemory),
    }
}
