//! The aircraft's specification, and missions that are generated from a number.

ghost use Rattle.std.specs.Prelude.{◌≡◌, Ok, IfOk};
ghost use Rattle.scram_doc.specs.Chain.{ok_map};
ghost use Rattle.fault_script.specs.Assumption.{IsWithin};
ghost use Rattle.fault_script.specs.Fits.{Fits};
ghost use Rattle.spec_reading.specs.Documents.{spec_of};
ghost use Rattle.reconf_spec.specs.Texts.{spec_text};
ghost use Rattle.mission_gen.specs.Changes.{frames_of, generated_script, generated_halt};
ghost use Rattle.mission_gen.specs.Specifications.{GivesSpecification, generated_text, mission_text, uav_text, with_further_factors};

use crate::random::{first_frame, random};
use crate::texts;
use crate::walks::make_changes;
use fault_script::write_script;
use reconf_spec::{SpecError, read_spec, write_spec};
use scram_types::{HaltAt, List, NoMemory, ProcId, Script, Spec};
use std::alloc::Global;

/// Returns the specification that a text encodes. The text must encode a specification. Returns an error if memory
/// runs out.
fn read_text(alloc: Global, text: &str) -> Result<Spec, NoMemory>
    requires { GivesSpecification text.now }
    ensures { IfOk result (λ spec. spec_of text.now ≡ Ok spec) }
{
    match read_spec(alloc, text.as_bytes()) {
        Ok(spec) => Ok(spec),
        Err(SpecError::NoMemory) => Err(NoMemory),
        Err(SpecError::Fault(_)) => unreachable!(),
    }
}

/// Returns the specification of the aircraft. It has an autopilot that needs a flight control, a power monitor, two
/// computers, and two alternators that may fail.
///
/// # Errors
///
/// Returns `NoMemory` if memory runs out.
pub fn uav(alloc: Global) -> Result<Spec, NoMemory>
    ensures text { IfOk result (λ spec. spec_of uav_text ≡ Ok spec) }
    ensures canonical { IfOk result (λ spec. spec_text spec ≡ uav_text) }
{
    read_text(alloc, texts::uav())
}

fn count_frames(n: u32) -> u32
    ensures value { result ≡ frames_of n }
{
    1000 + 1000 * (n % 19)
}

/// Returns the halt in the script of mission `n`. The halt is in block 5.
fn generated_halt(n: u32) -> HaltAt
    ensures { result ≡ generated_halt n }
{
    let x = random(n, 5);
    HaltAt {
        proc: ProcId((n % 2) as u8),
        frame: first_frame(5, x),
        step: (x % 26) as u8,
    }
}

fn make_script(alloc: Global, n: u32) -> Result<Script, NoMemory>
    ensures { IfOk result (λ script. script ≡ generated_script n) }
{
    let frames = count_frames(n);
    let changes = make_changes(alloc, n, frames)?;
    let mut halts = Vec::new(alloc);
    halts.push(generated_halt(n))?;
    Ok(Script {
        frames,
        changes: List::of(changes),
        halts: List::of(halts),
        restarts: List::of(Vec::new(alloc)),
    })
}

/// Returns mission `n`: the specification of the aircraft with four further factors, and a script of 1,000 to 19,000
/// frames. The script fits the specification and keeps to the failure assumption of the specification.
///
/// # Errors
///
/// Returns `NoMemory` if memory runs out.
pub fn generate(alloc: Global, n: u32) -> Result<(Spec, Script), NoMemory>
    ensures specification { IfOk result (λ made. ok_map with_further_factors (spec_of uav_text) ≡ Ok made.0) }
    ensures text { IfOk result (λ made. spec_of generated_text ≡ Ok made.0) }
    ensures canonical { IfOk result (λ made. spec_text made.0 ≡ generated_text) }
    ensures script { IfOk result (λ made. made.1 ≡ generated_script n) }
    ensures fits { IfOk result (λ made. Fits made.0 made.1) }
    ensures within { IfOk result (λ made. IsWithin made.0 made.1) }
{
    let spec = read_text(alloc, texts::generated())?;
    let script = make_script(alloc, n)?;
    Ok((spec, script))
}

/// Returns the canonical texts of a specification and of a script for it, one line each.
///
/// # Errors
///
/// Returns `NoMemory` if memory runs out.
pub fn write_mission(alloc: Global, spec: &Spec, script: &Script) -> Result<Vec<u8>, NoMemory>
    ensures { IfOk result (λ text. text.items ≡ mission_text spec.now script.now) }
{
    let mut text = write_spec(alloc, spec)?;
    text.push(b'\n')?;
    let line = write_script(alloc, script, spec)?;
    text.extend_from_slice(&line)?;
    text.push(b'\n')?;
    Ok(text)
}
