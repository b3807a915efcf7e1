//! The script of a list of faults, without allocation: the values of its factors and the processors that are up, in
//! each frame.

ghost use Rattle.std.specs.Prelude.{◌≡◌, ◌≤◌, ◌∷◌, [], filter_map};
ghost use Rattle.std.specs.List.{list_all, list_any};
ghost use Rattle.fault_script.specs.Times.{is_over, is_restart_between, is_up, value_after};
ghost use Rattle.fault_script.specs.Orders.{is_halt_before};
ghost use Rattle.coverage_check.specs.Timing.{greatest_bound};
ghost use Rattle.fault_family.specs.Scripts.{as_script, change_of_fault, halt_of_fault, last_fault_frame, restart_of_fault};

use crate::faults::{Fault, FaultKind};
use coverage_check::greatest_bound;
use scram_types::{Change, FactorId, HaltAt, ProcId, RestartAt, Spec};

/// The last frame in which a fault of a [`FaultScript`] may come.
pub const LAST_FAULT_FRAME: u32 = 4_000;
/// The maximum number of frames of a [`FaultScript`]: the sum of [`LAST_FAULT_FRAME`], the maximum bound and three.
pub const MAX_FAMILY_FRAMES: u32 = 5_003;

/// The script of a list of faults.
#[derive(Clone, Copy)]
pub struct FaultScript<'a> {
    pub frames: u32,
    pub faults: &'a [Fault],
}

impl<'a> FaultScript<'a> {
    ghost use Rattle.std.specs.Prelude.{◌≡◌, ◌≤◌};
    ghost use Rattle.fault_family.specs.Scripts.{frames_of_faults, last_fault_frame};
    ghost use Rattle.fault_family.specs.declared.scripts.TheConstants.{LAST_FAULT_FRAME, MAX_FAMILY_FRAMES};

    /// Returns the script of a list of faults. Its number of frames is the frame of the last fault plus the greatest
    /// bound plus three. The last fault must come in frame [`LAST_FAULT_FRAME`] or earlier.
    pub fn new(spec: &Spec, faults: &'a [Fault]) -> FaultScript<'a>
        requires { last_fault_frame faults.now ≤ LAST_FAULT_FRAME }
        ensures frames { result.frames ≡ frames_of_faults spec.now faults.now }
        ensures few { result.frames ≤ MAX_FAMILY_FRAMES }
        ensures faults { result.faults.now ≡ faults.now }
    {
        FaultScript {
            frames: last_fault_frame(faults) + greatest(spec) + 3,
            faults,
        }
    }
}

/// Returns a fault as a change, or `None` if the fault is not a change.
pub fn change_of_fault(fault: &Fault) -> Option<Change>
    ensures { result ≡ change_of_fault fault.now }
{
    match fault.kind {
        FaultKind::Change { factor, value } => Some(Change {
            frame: fault.frame,
            factor,
            value,
        }),
        _ => None,
    }
}

/// Returns a fault as a halt, or `None` if the fault is not a halt.
pub fn halt_of_fault(fault: &Fault) -> Option<HaltAt>
    ensures { result ≡ halt_of_fault fault.now }
{
    match fault.kind {
        FaultKind::Halt { proc, step } => Some(HaltAt {
            proc,
            frame: fault.frame,
            step,
        }),
        _ => None,
    }
}

/// Returns a fault as a restart, or `None` if the fault is not a restart.
pub fn restart_of_fault(fault: &Fault) -> Option<RestartAt>
    ensures { result ≡ restart_of_fault fault.now }
{
    match fault.kind {
        FaultKind::Restart { proc } => Some(RestartAt {
            proc,
            frame: fault.frame,
        }),
        _ => None,
    }
}

/// Returns the frame of the last fault of a list, or 0 if the list is empty.
pub fn last_fault_frame(faults: &[Fault]) -> u32
    ensures { result ≡ last_fault_frame faults.now }
{
    match faults.last() {
        Some(fault) => fault.frame,
        None => 0,
    }
}

/// Returns the greatest bound of the specification, in frames, or 0 if it has no bound.
pub fn greatest(spec: &Spec) -> u32
    ensures value { result ≡ greatest_bound spec.now.bounds }
    ensures few { result ≤ 1000 }
{
    // From the use of a field, the prover knows that the specification satisfies its invariant.
    let _ = &spec.bounds;
    greatest_bound(spec)
}

/// Returns the value that factor `factor` has in frame `frame` of the script of `faults`.
pub fn value_at(faults: &[Fault], factor: FactorId, frame: u32) -> u8
    ensures { result ≡ value_after (filter_map change_of_fault faults.now) factor.0 frame 0 }
{
    let mut value = 0;
    for fault in faults {
        value = newest(fault, factor, frame, value);
    }
    value
}

// Returns the value that factor `factor` has in frame `frame` after `fault` is added to a script. `value` is the
// factor's value in that frame without the fault.
fn newest(fault: &Fault, factor: FactorId, frame: u32, value: u8) -> u8
    ensures { result ≡ value_after (filter_map change_of_fault (fault.now ∷ [])) factor.0 frame value }
{
    match fault.kind {
        FaultKind::Change {
            factor: changed,
            value: new,
        } if changed.0 == factor.0 && fault.frame <= frame => new,
        _ => value,
    }
}

/// Returns `true` if processor `p` is up in frame `frame` of a script.
pub fn is_up(script: &FaultScript<'_>, p: u8, frame: u32) -> bool
    ensures { result ≡ is_up (as_script script.now) p frame }
{
    are_halts_over(script, p, frame)
}

// Returns `true` if processor `p` has restarted after each of its halts before frame `frame`. Restarts up to and
// including frame `frame` count.
fn are_halts_over(script: &FaultScript<'_>, p: u8, frame: u32) -> bool
    ensures { result ≡ list_all (is_over (as_script script.now) p frame) (filter_map halt_of_fault script.now.faults.now) }
{
    for fault in script.faults {
        if !is_over(script, fault, p, frame) {
            return false;
        }
    }
    true
}

// Returns `true` if `fault` leaves processor `p` up in frame `frame`. This is the case if the fault is not a halt of
// `p` before frame `frame`, or if `p` has restarted after the halt and no later than frame `frame`.
fn is_over(script: &FaultScript<'_>, fault: &Fault, p: u8, frame: u32) -> bool
    ensures { result ≡ list_all (is_over (as_script script.now) p frame) (filter_map halt_of_fault (fault.now ∷ [])) }
{
    match fault.kind {
        FaultKind::Halt { proc, .. } => {
            !(proc.0 == p
                && fault.frame < frame
                && !has_restarted(script.faults, p, fault.frame, frame))
        }
        _ => true,
    }
}

// Returns `true` if processor `p` restarts after frame `after` and no later than frame `frame`.
fn has_restarted(faults: &[Fault], p: u8, after: u32, frame: u32) -> bool
    ensures { result ≡ list_any (is_restart_between p after frame) (filter_map restart_of_fault faults.now) }
{
    for fault in faults {
        if is_restart_between(fault, p, after, frame) {
            return true;
        }
    }
    false
}

fn is_restart_between(fault: &Fault, p: u8, after: u32, frame: u32) -> bool
    ensures { result ≡ list_any (is_restart_between p after frame) (filter_map restart_of_fault (fault.now ∷ [])) }
{
    match fault.kind {
        FaultKind::Restart { proc } => proc.0 == p && after < fault.frame && fault.frame <= frame,
        _ => false,
    }
}

/// Returns `true` if processor `proc` halts at least two frames before frame `frame`.
pub fn has_halted_before(faults: &[Fault], proc: ProcId, frame: u32) -> bool
    ensures { result ≡ list_any (is_halt_before proc.0 frame) (filter_map halt_of_fault faults.now) }
{
    for fault in faults {
        if is_halt_before(fault, proc, frame) {
            return true;
        }
    }
    false
}

fn is_halt_before(fault: &Fault, of: ProcId, frame: u32) -> bool
    ensures { result ≡ list_any (is_halt_before of.0 frame) (filter_map halt_of_fault (fault.now ∷ [])) }
{
    match fault.kind {
        FaultKind::Halt { proc, .. } => proc.0 == of.0
            && u64::from(fault.frame) + 2 <= u64::from(frame),
        _ => false,
    }
}
