//! Reading script documents.

ghost use Rattle.std.specs.Prelude.{◌≡◌, ◌≤◌, [], length, option_map, IfOk};
ghost use Rattle.serde_json.specs.View.{view};
ghost use Rattle.scram_doc.specs.Chain.{ok_map};
ghost use Rattle.scram_doc.specs.Faults.{Answers};
ghost use Rattle.scram_types.specs.declared.limits.TheConstants.{MAX_FRAMES};
ghost use Rattle.fault_script.specs.Fits.{Fits};
ghost use Rattle.fault_script.specs.Reading.{find_members, check_halts, make_members, need_restarts, read_frames, read_scram, read_values, script_in, script_of};

use crate::lists::{Halts, Restarts, check, read_changes, read_halts, read_restarts};
use crate::order::may_halt;
use crate::version::{Version, version_of};
use crate::{ScriptError, ScriptFault, rule};
use scram_doc::{Path, no_more_than, object, parse, required, required_four, whole_in};
use scram_types::limits::{MAX_FRAMES, MAX_SCRIPT_BYTES};
use scram_types::{HaltAt, RestartAt, Script, Spec};
use serde_json::Value;
use std::alloc::Global;

fn read_scram(v: &Value, at: &Path) -> Result<(), ScriptFault>
    ensures { result ≡ read_scram at.now (view v.now) }
{
    let version = whole_in(v, 0, 1_001, at)?;
    check(version == 1 || version == 2, rule::UNKNOWN_VERSION, at)
}

// Checks that each halt is one that its processor may have after the preceding ones.
fn check_halts(restarts: &[RestartAt], halts: &[HaltAt], at: &Path) -> Result<(), ScriptFault>
    requires path { length at.now ≤ 30 }
    requires few { length halts.now ≤ 16 }
    ensures { result ≡ check_halts restarts.now at.now 0 [] halts.now }
{
    for (i, halt) in halts.iter().enumerate() {
        check(
            may_halt(restarts, &halts[..i], halt),
            rule::WRONG_HALT,
            &at.item(i),
        )?;
    }
    Ok(())
}

// The values of the members of a script document.
#[derive(Drop)]
struct Members<'a> {
    scram: &'a Value,
    frames: &'a Value,
    changes: &'a Value,
    halts: &'a Value,
    restarts: Option<&'a Value>,
}

fn need_restarts(version: Version, v: &Value) -> Result<Option<&Value>, ScriptFault>
    ensures { ok_map (λ o. option_map (λ d. view d.now) o) result ≡ need_restarts version (view v.now) }
{
    match version {
        Version::First => Ok(None),
        Version::Second => match required(v, "restarts", &Path::root()) {
            Ok(restarts) => Ok(Some(restarts)),
            Err(fault) => Err(fault),
        },
    }
}

fn find_members(version: Version, v: &Value) -> Result<Members<'_>, ScriptFault>
    ensures { ok_map
        (λ m. make_members (view m.scram.now) (view m.frames.now) (view m.changes.now) (view m.halts.now) (option_map (λ d. view d.now) m.restarts)) result
        ≡ find_members version (view v.now) }
{
    let at = Path::root();
    object(v, &at)?;
    let names = ("scram", "frames", "changes", "halts");
    let (scram, frames, changes, halts) = required_four(v, names, &at)?;
    let restarts = need_restarts(version, v)?;
    no_more_than(v, version.member_count(), &at)?;
    Ok(Members {
        scram,
        frames,
        changes,
        halts,
        restarts,
    })
}

fn read_frames(scram: &Value, frames: &Value) -> Result<u32, ScriptFault>
    ensures frames { result ≡ read_frames (view scram.now) (view frames.now) }
    ensures most { IfOk result (λ frames. frames ≤ MAX_FRAMES) }
{
    let at = Path::root();
    read_scram(scram, &at.member("scram"))?;
    whole_in(frames, 0, MAX_FRAMES + 1, &at.member("frames"))
}

fn read_values(
    alloc: Global,
    spec: &Spec,
    version: Version,
    m: &Members<'_>,
) -> Result<Script, ScriptError>
    ensures { Answers (read_values spec.now version
        (make_members (view m.now.scram.now) (view m.now.frames.now) (view m.now.changes.now) (view m.now.halts.now)
        (option_map (λ d. view d.now) m.now.restarts)))
        (λ script. script) result }
{
    let frames = read_frames(m.scram, m.frames)?;
    let changes = read_changes(alloc, spec, frames, m.changes)?;
    let listed = Halts {
        spec,
        version,
        frames,
    };
    let halts = read_halts(alloc, &listed, m.halts)?;
    let listed = Restarts {
        spec,
        frames,
        halts: halts.items(),
    };
    let restarts = read_restarts(alloc, &listed, m.restarts)?;
    check_halts(
        restarts.items(),
        halts.items(),
        &Path::root().member("halts"),
    )?;
    Ok(Script {
        frames,
        changes,
        halts,
        restarts,
    })
}

fn read_document(alloc: Global, spec: &Spec, v: &Value) -> Result<Script, ScriptError>
    ensures script { Answers (script_in spec.now (view v.now)) (λ script. script) result }
    ensures fits { IfOk result (λ script. Fits spec.now script) }
{
    let version = version_of(v);
    let members = find_members(version, v)?;
    read_values(alloc, spec, version, &members)
}

/// Returns the script that a document encodes. The script fits the specification.
///
/// # Errors
///
/// Returns an error with the first rule that the document breaks and the path of the value that breaks the rule, and
/// `NoMemory` if memory runs out.
pub fn read_script(alloc: Global, bytes: &[u8], spec: &Spec) -> Result<Script, ScriptError>
    ensures script { Answers (script_of spec.now bytes.now) (λ script. script) result }
    ensures fits { IfOk result (λ script. Fits spec.now script) }
{
    if bytes.len() > MAX_SCRIPT_BYTES {
        return Err(ScriptError::from(ScriptFault::new(rule::TOO_LONG, &Path::root())));
    }
    let value = parse(alloc, bytes)?;
    read_document(alloc, spec, &value)
}
