//! Reading the lists of a script document: changes, halts and restarts.

ghost use Rattle.std.specs.Prelude.{◌≡◌, ◌≤◌, [], codes, length, option_map, IfOk};
ghost use Rattle.serde_json.specs.View.{view};
ghost use Rattle.scram_doc.specs.Faults.{Answers};
ghost use Rattle.scram_doc.specs.Paths.{member_path};
ghost use Rattle.fault_script.specs.Reading.{find_value, check, read_change, read_changes, read_halt, read_halts, read_named_factor, read_named_proc, read_named_value, read_next_change, read_next_halt, read_next_restart, read_restart, read_restarts};

use crate::order::{change_follows, halt_follows, restart_follows};
use crate::version::Version;
use crate::{ScriptError, ScriptFault, rule};
use scram_doc::{Elements, Lengths, Path, exactly_three, exactly_two, read_list, text, whole_in};
use scram_types::limits::MAX_CHANGES;
use scram_types::{Change, FactorId, HaltAt, List, ProcId, RestartAt, Spec};
use serde_json::Value;
use std::alloc::Global;

// Returns an error with the fault of a rule at a path if the test fails.
pub(crate) fn check(test: bool, rule: u8, at: &Path) -> Result<(), ScriptFault>
    ensures { result ≡ check test rule at.now }
{
    if test {
        Ok(())
    } else {
        Err(ScriptFault::new(rule, at))
    }
}

fn read_named_proc(spec: &Spec, v: &Value, at: &Path) -> Result<ProcId, ScriptFault>
    ensures { result ≡ read_named_proc spec.now at.now (view v.now) }
{
    match spec.proc_named(text(v, at)?.as_bytes()) {
        Some(proc) => Ok(proc),
        None => Err(ScriptFault::new(rule::UNKNOWN_NAME, at)),
    }
}

fn read_named_factor(spec: &Spec, v: &Value, at: &Path) -> Result<FactorId, ScriptFault>
    ensures { result ≡ read_named_factor spec.now at.now (view v.now) }
{
    match spec.factor_named(text(v, at)?.as_bytes()) {
        Some(factor) => Ok(factor),
        None => Err(ScriptFault::new(rule::UNKNOWN_NAME, at)),
    }
}

/// Returns the number of the factor's value that has this name, or `None` if there is no such factor or value.
pub fn find_value(spec: &Spec, factor: FactorId, text: &[u8]) -> Option<u8>
    ensures { result ≡ find_value spec.now factor text.now }
{
    match spec.factors.items().get(usize::from(factor.0)) {
        Some(found) => found.value_named(text),
        None => None,
    }
}

fn read_named_value(spec: &Spec, factor: FactorId, v: &Value, at: &Path) -> Result<u8, ScriptFault>
    ensures { result ≡ read_named_value spec.now factor at.now (view v.now) }
{
    match find_value(spec, factor, text(v, at)?.as_bytes()) {
        Some(value) => Ok(value),
        None => Err(ScriptFault::new(rule::UNKNOWN_NAME, at)),
    }
}

fn read_change(spec: &Spec, frames: u32, v: &Value, at: &Path) -> Result<Change, ScriptFault>
    requires { length at.now ≤ 40 }
    ensures { result ≡ read_change spec.now frames at.now (view v.now) }
{
    let (frame, factor, value) = exactly_three(v, ("frame", "factor", "value"), at)?;
    let frame = whole_in(frame, 1, frames, &at.member("frame"))?;
    let factor = read_named_factor(spec, factor, &at.member("factor"))?;
    let value = read_named_value(spec, factor, value, &at.member("value"))?;
    Ok(Change {
        frame,
        factor,
        value,
    })
}

/// A reader of the changes of a script with `frames` frames. Each change must come after the preceding ones.
#[derive(Clone, Copy)]
struct Changes<'a> {
    spec: &'a Spec,
    frames: u32,
}

impl Elements<Change> for Changes<'_> {
    ghost use Rattle.std.specs.Prelude.{⊤};

    ghost room = { 40 };

    ghost reading = { λ changes. read_next_change changes.spec.now changes.frames };

    ghost Fits = { λ _ _ _. ⊤ };

    fn read(
        &self,
        _alloc: Global,
        before: &[Change],
        v: &Value,
        at: &Path,
    ) -> Result<Change, ScriptError> {
        let change = read_change(self.spec, self.frames, v, at)?;
        check(change_follows(before, &change), rule::OUT_OF_ORDER, at)?;
        Ok(change)
    }
}

// Returns the changes that the member `changes` of a document encodes.
pub(crate) fn read_changes(
    alloc: Global,
    spec: &Spec,
    frames: u32,
    v: &Value,
) -> Result<List<Change>, ScriptError>
    ensures { Answers (read_changes spec.now frames (member_path [] (codes "changes")) (view v.now)) (λ changes. changes) result }
{
    let changes = read_list(
        alloc,
        &Changes { spec, frames },
        v,
        Lengths::up_to(MAX_CHANGES),
        &Path::root().member("changes"),
    )?;
    Ok(List::of(changes))
}

fn read_halt(spec: &Spec, frames: u32, v: &Value, at: &Path) -> Result<HaltAt, ScriptFault>
    requires { length at.now ≤ 40 }
    ensures { result ≡ read_halt spec.now frames at.now (view v.now) }
{
    let steps = 8 * spec.apps.items().len() as u32 + 2;
    let (proc, frame, step) = exactly_three(v, ("processor", "frame", "step"), at)?;
    let proc = read_named_proc(spec, proc, &at.member("processor"))?;
    let frame = whole_in(frame, 0, frames, &at.member("frame"))?;
    let step = whole_in(step, 0, steps, &at.member("step"))?;
    Ok(HaltAt {
        proc,
        frame,
        step: step as u8,
    })
}

/// A reader of the halts of a script with `frames` frames. Each halt must come after the preceding ones.
#[derive(Clone, Copy)]
pub(crate) struct Halts<'a> {
    pub(crate) spec: &'a Spec,
    pub(crate) version: Version,
    pub(crate) frames: u32,
}

impl Elements<HaltAt> for Halts<'_> {
    ghost use Rattle.std.specs.Prelude.{⊤};

    ghost room = { 40 };

    ghost reading = { λ halts. read_next_halt halts.spec.now halts.version halts.frames };

    ghost Fits = { λ _ _ _. ⊤ };

    fn read(
        &self,
        _alloc: Global,
        before: &[HaltAt],
        v: &Value,
        at: &Path,
    ) -> Result<HaltAt, ScriptError> {
        let halt = read_halt(self.spec, self.frames, v, at)?;
        check(
            halt_follows(self.version, before, &halt),
            rule::OUT_OF_ORDER,
            at,
        )?;
        Ok(halt)
    }
}

// Returns the halts that the member `halts` of a document encodes.
pub(crate) fn read_halts(
    alloc: Global,
    halts: &Halts<'_>,
    v: &Value,
) -> Result<List<HaltAt>, ScriptError>
    ensures halts { Answers (read_halts halts.now.spec.now halts.now.version halts.now.frames (member_path [] (codes "halts")) (view v.now))
        (λ halts. halts) result }
    ensures few { IfOk result (λ halts. length halts ≤ 16) }
{
    let halts = read_list(
        alloc,
        halts,
        v,
        Lengths::up_to(halts.version.halts_limit()),
        &Path::root().member("halts"),
    )?;
    Ok(List::of(halts))
}

fn read_restart(spec: &Spec, frames: u32, v: &Value, at: &Path) -> Result<RestartAt, ScriptFault>
    requires { length at.now ≤ 40 }
    ensures { result ≡ read_restart spec.now frames at.now (view v.now) }
{
    let (proc, frame) = exactly_two(v, ("processor", "frame"), at)?;
    let proc = read_named_proc(spec, proc, &at.member("processor"))?;
    let frame = whole_in(frame, 2, frames, &at.member("frame"))?;
    Ok(RestartAt { proc, frame })
}

/// A reader of the restarts of a script with `frames` frames. Each restart must follow the preceding ones and the
/// halts as `restart_follows` requires.
#[derive(Clone, Copy)]
pub(crate) struct Restarts<'a> {
    pub(crate) spec: &'a Spec,
    pub(crate) frames: u32,
    pub(crate) halts: &'a [HaltAt],
}

impl Elements<RestartAt> for Restarts<'_> {
    ghost use Rattle.std.specs.Prelude.{⊤};

    ghost room = { 40 };

    ghost reading = { λ restarts. read_next_restart restarts.spec.now restarts.frames restarts.halts.now };

    ghost Fits = { λ _ _ _. ⊤ };

    fn read(
        &self,
        _alloc: Global,
        before: &[RestartAt],
        v: &Value,
        at: &Path,
    ) -> Result<RestartAt, ScriptError> {
        let restart = read_restart(self.spec, self.frames, v, at)?;
        check(
            restart_follows(self.halts, before, &restart),
            rule::WRONG_RESTART,
            at,
        )?;
        Ok(restart)
    }
}

// Returns the restarts of a document. The list is empty if the document has no member `restarts`.
pub(crate) fn read_restarts(
    alloc: Global,
    restarts: &Restarts<'_>,
    v: Option<&Value>,
) -> Result<List<RestartAt>, ScriptError>
    ensures { Answers (read_restarts restarts.now.spec.now restarts.now.frames restarts.now.halts.now (member_path [] (codes "restarts"))
        (option_map (λ d. view d.now) v.entry)) (λ restarts. restarts) result }
{
    match v {
        Some(v) => {
            let at = Path::root().member("restarts");
            let restarts = read_list(alloc, restarts, v, Lengths::up_to(8), &at)?;
            Ok(List::of(restarts))
        }
        None => Ok(List::of(Vec::new(alloc))),
    }
}
