//! Specifications, scripts and missions that are made from texts.

ghost use Rattle.std.specs.Prelude.{IfOk};
ghost use Rattle.fault_script.specs.Fits.{Fits};

use crate::lines::line_after;
use crate::one_thread::given;
use coverage_check::{Accepted, Mission, accept};
use fault_script::read_script;
use mission_gen::uav;
use reconf_spec::{read_spec, write_spec};
use scram_types::{Script, Spec};
use std::alloc::Global;
use std::fs;
use std::io::{self, ErrorKind};
use std::rt::HostRuntime;

/// Returns the canonical text of the aircraft `uav`.
///
/// # Errors
///
/// Returns an error if memory runs out.
pub fn uav_text(alloc: Global) -> io::Result<String> {
    match uav(alloc) {
        Ok(spec) => {
            let text = canonical_text(alloc, &spec);
            drop(spec);
            text
        }
        Err(_) => Err(ErrorKind::OutOfMemory.into()),
    }
}

fn canonical_text(alloc: Global, spec: &Spec) -> io::Result<String> {
    match String::from_utf8(given(write_spec(alloc, spec))?) {
        Ok(text) => Ok(text),
        Err(_) => Err(ErrorKind::InvalidData.into()),
    }
}

/// Returns the specification in the file that the line `on FILE` of a row names, or `uav` if the row has no such
/// line.
///
/// # Errors
///
/// Returns an error if the file cannot be read or is not a specification, or if memory runs out.
pub fn spec_of_row(rt: &HostRuntime, row: &str) -> io::Result<Spec> {
    match line_after(row, "on ") {
        Some(name) => spec_of_file(rt, name),
        None => given(uav(rt.alloc())),
    }
}

fn spec_of_file(rt: &HostRuntime, name: &str) -> io::Result<Spec> {
    let text = fs::read_to_string(rt, name)?;
    spec_of_text(rt.alloc(), text.as_str())
}

/// Reads a script from its text.
///
/// # Errors
///
/// Returns an error if the text is not a script for the specification, or if memory runs out.
pub fn script_of_text(alloc: Global, spec: &Spec, text: &str) -> io::Result<Script>
    ensures { IfOk result (λ script. Fits spec.now script) }
{
    match read_script(alloc, text.as_bytes(), spec) {
        Ok(script) => Ok(script),
        Err(_) => Err(ErrorKind::InvalidInput.into()),
    }
}

/// Reads a specification from its text.
///
/// # Errors
///
/// Returns an error if the text is not a specification, or if memory runs out.
pub fn spec_of_text(alloc: Global, text: &str) -> io::Result<Spec> {
    match read_spec(alloc, text.as_bytes()) {
        Ok(spec) => Ok(spec),
        Err(_) => Err(ErrorKind::InvalidInput.into()),
    }
}

/// Returns the mission of a specification and a script, which are given as texts.
///
/// # Errors
///
/// Returns an error if a text is not valid, if the specification or the mission is not accepted, or if memory runs
/// out.
pub fn mission_of_texts(alloc: Global, spec: &str, script: &str) -> io::Result<Mission> {
    let spec = spec_of_text(alloc, spec)?;
    match script_of_text(alloc, &spec, script) {
        Ok(script) => accepted_mission(alloc, spec, script),
        Err(error) => {
            drop(spec);
            Err(error)
        }
    }
}

fn accepted_mission(alloc: Global, spec: Spec, script: Script) -> io::Result<Mission>
    requires { Fits spec script }
{
    match accept(alloc, spec) {
        Ok(accepted) => mission_of(accepted, script),
        Err(refused) => {
            drop((refused, script));
            Err(ErrorKind::InvalidInput.into())
        }
    }
}

fn mission_of(accepted: Accepted, script: Script) -> io::Result<Mission>
    requires { Fits accepted script }
{
    match Mission::new(accepted, script) {
        Ok(mission) => Ok(mission),
        Err(refused) => {
            drop(refused);
            Err(ErrorKind::InvalidInput.into())
        }
    }
}
