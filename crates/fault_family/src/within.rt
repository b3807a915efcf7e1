//! The check whether the script of a list of faults keeps the failure assumption.

ghost use Rattle.std.specs.Prelude.{◌≡◌, ◌+◌, ◌-◌, ◌≤◌, is_some, length};
ghost use Rattle.scram_types.specs.Bits.{bits_below};
ghost use Rattle.fault_script.specs.Assumption.{brings_too_many_down, changes_upto, down_below, has_too_many_down, is_change_frame, is_change_too_many, outside_at};
ghost use Rattle.fault_script.specs.Environments.{env_at};
ghost use Rattle.fault_script.specs.Times.{factors_at, is_up};
ghost use Rattle.fault_family.specs.Counting.{AreChangeFrameCounts};
ghost use Rattle.fault_family.specs.Scripts.{as_script, is_within};
ghost use Rattle.fault_family.specs.declared.scripts.TheConstants.{MAX_FAMILY_FRAMES};

use crate::scripts::{FaultScript, is_up, value_at};
use fault_script::differs;
use scram_types::{Env, FactorId, Spec};

/// Returns `true` if a script keeps the failure assumption of the specification. The assumption requires that no
/// frame, including the frame after the last, has more than `halts` processors down. It also requires that any
/// `window` consecutive frames contain at most `changes + 1` frames whose environment differs from the environment of
/// the previous frame.
pub fn is_within(spec: &Spec, script: &FaultScript<'_>) -> bool
    requires { script.now.frames ≤ MAX_FAMILY_FRAMES }
    ensures { result ≡ is_within spec.now (as_script script.now) }
{
    let mut counts = Counts { upto: 0, past: 0 };
    for frame in 0..script.frames + 1 {
        counts = counts_with(spec, script, &counts, frame);
        if is_outside_at(spec, script, &counts, frame) {
            return false;
        }
    }
    true
}

// Counts of the frames that change the environment. `upto` counts those up to and including a given frame. `past`
// counts those before the window that ends with the given frame.
#[derive(Clone, Copy)]
struct Counts {
    upto: u32,
    past: u32,
}

// Returns the counts for frame `frame`, given `counts`, the counts for the previous frame.
fn counts_with(spec: &Spec, script: &FaultScript<'_>, counts: &Counts, frame: u32) -> Counts
    requires frame { frame ≤ MAX_FAMILY_FRAMES }
    requires counts { AreChangeFrameCounts spec.now (as_script script.now) (frame - 1) counts.now }
    ensures { AreChangeFrameCounts spec.now (as_script script.now) frame result }
{
    let past = if spec.window <= frame {
        count_with(spec, script, counts.past, frame - spec.window)
    } else {
        counts.past
    };
    Counts {
        upto: count_with(spec, script, counts.upto, frame),
        past,
    }
}

// Returns the number of frames that change the environment, up to and including frame `frame`. `count` is this number
// for the previous frame.
fn count_with(spec: &Spec, script: &FaultScript<'_>, count: u32, frame: u32) -> u32
    requires frame { frame ≤ MAX_FAMILY_FRAMES }
    requires count { count ≡ changes_upto spec.now (as_script script.now) (frame - 1) }
    ensures { result ≡ changes_upto spec.now (as_script script.now) frame }
{
    if is_change_frame(spec, script, frame) {
        count + 1
    } else {
        count
    }
}

// Returns `true` if the script violates the failure assumption in frame `frame`.
fn is_outside_at(spec: &Spec, script: &FaultScript<'_>, counts: &Counts, frame: u32) -> bool
    requires few { script.now.frames ≤ MAX_FAMILY_FRAMES }
    requires frame { frame ≤ script.now.frames }
    requires counts { AreChangeFrameCounts spec.now (as_script script.now) frame counts.now }
    ensures { result ≡ is_some (outside_at spec.now (as_script script.now) frame) }
{
    brings_too_many_down(spec, script, frame) || is_change_too_many(spec, script, counts, frame)
}

// Returns `true` if frame `frame` changes the environment and the window that ends with frame `frame` contains too
// many such changes.
fn is_change_too_many(spec: &Spec, script: &FaultScript<'_>, counts: &Counts, frame: u32) -> bool
    requires counts { AreChangeFrameCounts spec.now (as_script script.now) frame counts.now }
    ensures { result ≡ is_change_too_many spec.now (as_script script.now) frame }
{
    is_change_frame(spec, script, frame) && u32::from(spec.changes) + 1 < counts.upto - counts.past
}

fn is_change_frame(spec: &Spec, script: &FaultScript<'_>, frame: u32) -> bool
    ensures { result ≡ is_change_frame spec.now (as_script script.now) frame }
{
    frame != 0
        && differs(
            &env_at(spec, script, frame - 1),
            &env_at(spec, script, frame),
        )
}

fn env_at(spec: &Spec, script: &FaultScript<'_>, frame: u32) -> Env
    ensures { result ≡ env_at spec.now (as_script script.now) frame }
{
    Env {
        up: up_set_at(spec, script, frame),
        factors: factors_at(script, frame),
    }
}

fn factors_at(script: &FaultScript<'_>, frame: u32) -> [u8; 6]
    ensures { result ≡ factors_at (as_script script.now) frame }
{
    [
        value_at(script.faults, FactorId(0), frame),
        value_at(script.faults, FactorId(1), frame),
        value_at(script.faults, FactorId(2), frame),
        value_at(script.faults, FactorId(3), frame),
        value_at(script.faults, FactorId(4), frame),
        value_at(script.faults, FactorId(5), frame),
    ]
}

fn up_set_at(spec: &Spec, script: &FaultScript<'_>, frame: u32) -> u8
    ensures { result ≡ bits_below (λ p. is_up (as_script script.now) p frame) (length spec.now.procs) }
{
    let mut up = 0;
    for p in 0..spec.procs.items().len() as u8 {
        if is_up(script, p, frame) {
            up += 1 << p;
        }
    }
    up
}

fn brings_too_many_down(spec: &Spec, script: &FaultScript<'_>, frame: u32) -> bool
    requires frame { frame ≤ script.now.frames }
    requires few { script.now.frames ≤ MAX_FAMILY_FRAMES }
    ensures { result ≡ brings_too_many_down spec.now (as_script script.now) frame }
{
    frame != script.frames && has_too_many_down(spec, script, frame + 1)
}

fn has_too_many_down(spec: &Spec, script: &FaultScript<'_>, frame: u32) -> bool
    ensures { result ≡ has_too_many_down spec.now (as_script script.now) frame }
{
    spec.halts < count_down(script, spec.procs.items().len() as u8, frame)
}

// Returns how many of the first `processors` processors are down in frame `frame`.
fn count_down(script: &FaultScript<'_>, processors: u8, frame: u32) -> u8
    ensures value { result ≡ down_below (as_script script.now) frame processors }
    ensures most { result ≤ processors }
{
    let mut down = 0;
    for p in 0..processors {
        if !is_up(script, p, frame) {
            down += 1;
        }
    }
    down
}
