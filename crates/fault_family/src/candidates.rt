//! The faults that may come next in a script.

ghost use Rattle.std.specs.Prelude.{◌≡◌, ℕ, ◌+◌, ◌*◌, ◌<◌, ◌≤◌, ◌++◌, [], Some, flat_map, length, slice_get};
ghost use Rattle.std.specs.List.{list_all};
ghost use Rattle.fault_script.specs.Times.{words};
ghost use Rattle.coverage_check.specs.Timing.{greatest_bound};
ghost use Rattle.fault_family.specs.NextFaults.{candidates, factor_changes, frames_after, gaps, proc_halts, kinds_of, numbers_below, restarts_of, factor_value_count};
ghost use Rattle.fault_family.specs.Families.{differs_in, may_follow};
ghost use Rattle.fault_family.specs.Faults.{may_come_after};
ghost use Rattle.fault_family.specs.Scripts.{last_fault_frame, script_in_frames};
ghost use Rattle.fault_family.specs.declared.scripts.TheConstants.{LAST_FAULT_FRAME};

use crate::faults::{Fault, FaultKind, may_come_after};
use crate::scripts::{greatest, has_halted_before, value_at};
use arrayvec::ArrayVec;
use scram_types::{FactorId, ProcId, Spec};

/// The maximum number of kinds of fault that a specification has.
pub const MAX_KINDS: usize = 48;

/// The kinds of fault of a specification, in order: the changes, the halts, and the restarts.
#[derive(Drop)]
pub struct Kinds {
    kinds: ArrayVec<FaultKind, MAX_KINDS>,
}

impl std::marker::Model for Kinds {
    ghost use Rattle.std.specs.Prelude.{List};
    ghost use Rattle.fault_family.specs.declared.faults.FaultKind.{FaultKind};

    ghost Value = { List FaultKind };

    ghost view = { λ k. k.kinds.items };
}

impl Kinds {
    ghost use Rattle.std.specs.Prelude.{◌≡◌, ◌≤◌, length};
    ghost use Rattle.fault_family.specs.NextFaults.{kinds_of};

    /// Returns the kinds of fault of a specification.
    pub fn of(spec: &Spec) -> Kinds
        ensures { result ≡ kinds_of spec.now }
    {
        let mut kinds = ArrayVec::new();
        add_changes(&mut kinds, spec);
        add_halts(&mut kinds, spec);
        add_restarts(&mut kinds, spec);
        Kinds { kinds }
    }

    /// Returns the kinds, in order.
    pub fn as_slice(&self) -> &[FaultKind]
        ensures value { result.now ≡ self.now }
        ensures few { length result.now ≤ 48 }
    {
        self.kinds.as_slice()
    }
}

fn add_changes(kinds: &mut ArrayVec<FaultKind, MAX_KINDS>, spec: &Spec)
    requires { kinds.old.items ≡ [] }
    ensures kinds { kinds.new.items ≡ flat_map (factor_changes spec.now) (numbers_below (length spec.now.factors)) }
    ensures few { length kinds.new.items ≤ 24 }
{
    for x in 0..spec.factors.items().len() as u8 {
        add_changes_of(kinds, spec, x);
    }
}

fn add_changes_of(kinds: &mut ArrayVec<FaultKind, MAX_KINDS>, spec: &Spec, x: u8)
    requires { length kinds.old.items ≤ 20 }
    ensures kinds { kinds.new.items ≡ kinds.old.items ++ factor_changes spec.now x }
    ensures few { length kinds.new.items ≤ length kinds.old.items + 4 }
{
    for value in 0..factor_value_count(spec, x) {
        let factor = FactorId(x);
        kinds.push(FaultKind::Change { factor, value });
    }
}

fn add_halts(kinds: &mut ArrayVec<FaultKind, MAX_KINDS>, spec: &Spec)
    requires { length kinds.old.items ≤ 24 }
    ensures kinds { kinds.new.items ≡ kinds.old.items ++ flat_map (proc_halts spec.now) (numbers_below (length spec.now.procs)) }
    ensures few { length kinds.new.items ≤ length kinds.old.items + 16 }
{
    for p in 0..spec.procs.items().len() as u8 {
        add_halts_of(kinds, spec, p);
    }
}

fn add_halts_of(kinds: &mut ArrayVec<FaultKind, MAX_KINDS>, spec: &Spec, p: u8)
    requires { length kinds.old.items ≤ 38 }
    ensures kinds { kinds.new.items ≡ kinds.old.items ++ proc_halts spec.now p }
    ensures few { length kinds.new.items ≡ length kinds.old.items + 2 }
{
    let proc = ProcId(p);
    let step = words(spec) + 1;
    kinds.push(FaultKind::Halt { proc, step: 0 });
    kinds.push(FaultKind::Halt { proc, step });
}

fn add_restarts(kinds: &mut ArrayVec<FaultKind, MAX_KINDS>, spec: &Spec)
    requires { length kinds.old.items ≤ 40 }
    ensures { kinds.new.items ≡ kinds.old.items ++ restarts_of spec.now }
{
    for p in 0..spec.procs.items().len() as u8 {
        let proc = ProcId(p);
        kinds.push(FaultKind::Restart { proc });
    }
}

// Returns the number of values of factor `x`, or 0 if there is no such factor.
fn factor_value_count(spec: &Spec, x: u8) -> u8
    ensures value { result ≡ factor_value_count spec.now x }
    ensures few { result ≤ 4 }
{
    match spec.factors.items().get(usize::from(x)) {
        Some(factor) => factor.values.items().len() as u8,
        None => 0,
    }
}

// Returns the number of words of an image, eight for each application.
fn words(spec: &Spec) -> u8
    ensures value { result ≡ words spec.now }
    ensures few { result ≤ 64 }
{
    8 * spec.apps.items().len() as u8
}

/// Returns the number of candidates for the next fault after the faults `before`. There is a candidate of each kind
/// for each frame in which a fault may come.
pub fn candidate_count(spec: &Spec, kinds: &[FaultKind], before: &[Fault]) -> u32
    requires kinds { kinds.now ≡ kinds_of spec.now }
    requires few { length kinds.now ≤ 48 }
    ensures { result ≡ length (candidates spec.now before.now) }
{
    frame_count(spec, before) * kinds.len() as u32
}

/// Returns candidate `k`, counted from 0, for the next fault after the faults `before`. There is a candidate of each
/// kind for each frame in which a fault may come. The candidates are listed frame by frame, and within each frame in
/// the order of the kinds.
pub fn candidate(spec: &Spec, kinds: &[FaultKind], before: &[Fault], k: u32) -> Fault
    requires kinds { kinds.now ≡ kinds_of spec.now }
    requires few { length kinds.now ≤ 48 }
    requires before { last_fault_frame before.now ≤ LAST_FAULT_FRAME }
    requires k { k < length (candidates spec.now before.now) }
    ensures fault { slice_get (candidates spec.now before.now) k ≡ Some result }
    ensures frame { result.frame ≤ last_fault_frame before.now + 1001 }
{
    let width = kinds.len() as u32;
    Fault {
        frame: frame_after(spec, before, k / width),
        kind: kinds[(k % width) as usize],
    }
}

// Returns the number of frames in which a fault may come after the faults `before`.
fn frame_count(spec: &Spec, before: &[Fault]) -> u32
    ensures value { result ≡ length (frames_after spec.now before.now) }
    ensures few { result ≤ 1003 }
{
    match before.last() {
        Some(_) => greatest(spec) + 3,
        None => 1,
    }
}

// Returns the frame with index `i` among the frames in which a fault may come after the faults `before`.
fn frame_after(spec: &Spec, before: &[Fault], i: u32) -> u32
    requires i { i < length (frames_after spec.now before.now) }
    requires before { last_fault_frame before.now ≤ LAST_FAULT_FRAME }
    ensures value { slice_get (frames_after spec.now before.now) i ≡ Some result }
    ensures most { result ≤ last_fault_frame before.now + 1001 }
{
    match before.last() {
        Some(last) => last.frame + gap(spec, i),
        None => 1,
    }
}

// Returns the gap with index `i`. A gap is a number of frames by which a fault may come after the previous fault.
fn gap(spec: &Spec, i: u32) -> u32
    requires { i < greatest_bound spec.now.bounds + 3 }
    ensures value { slice_get (gaps spec.now) i ≡ Some result }
    ensures most { result ≤ 1001 }
{
    if i < greatest(spec) + 2 {
        i
    } else {
        spec.window + 1
    }
}

/// Returns `true` if `fault` may follow the faults `before`: it may come after each of them, and it makes a
/// difference to the script of `before`.
pub fn may_follow(spec: &Spec, before: &[Fault], fault: &Fault) -> bool
    ensures { result ≡ may_follow spec.now before.now fault.now }
{
    // From the use of a field, the prover knows that the specification satisfies its invariant.
    let _ = &spec.procs;
    may_come_after_all(before, fault) && differs_in(before, fault)
}

fn may_come_after_all(before: &[Fault], fault: &Fault) -> bool
    ensures { result ≡ list_all (may_come_after fault.now) before.now }
{
    before.iter().all(|earlier| may_come_after(earlier, fault))
}

// Returns `true` if `fault` makes a difference to the script of the faults `before`.
fn differs_in(before: &[Fault], fault: &Fault) -> bool
    ensures { (frames : ℕ) → result ≡ differs_in (script_in_frames frames before.now) fault.now.frame fault.now.kind }
{
    match fault.kind {
        FaultKind::Change { factor, value } => value_at(
            before,
            factor,
            fault.frame.saturating_sub(1),
        ) != value,
        FaultKind::Halt { .. } => true,
        FaultKind::Restart { proc } => has_halted_before(before, proc, fault.frame),
    }
}
