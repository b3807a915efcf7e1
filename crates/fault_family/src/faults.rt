//! Faults, and their order.

ghost use Rattle.std.specs.Prelude.{◌≡◌, ◌++◌, ◌∷◌, ◌<◌, [], length};
ghost use Rattle.fault_script.specs.Orders.{comes_after};
ghost use Rattle.fault_family.specs.Faults.{detail, may_come_after, precedes, rank, repeats, subject};

use arrayvec::ArrayVec;
use scram_types::{FactorId, ProcId};

/// The maximum number of faults in a script of the family.
pub const MAX_FAULTS: usize = 3;

/// A kind of fault.
#[derive(Clone, Copy)]
pub enum FaultKind {
    /// A change of a factor to a value, which is given by its index among the factor's values.
    Change { factor: FactorId, value: u8 },
    /// A halt of a processor after `step` stores, or after its mark if `step` is greater than the number of words of
    /// an image.
    Halt { proc: ProcId, step: u8 },
    /// A restart of a processor.
    Restart { proc: ProcId },
}

impl Default for FaultKind {
    /// Returns the kind that fills the unused entries of an array.
    fn default() -> FaultKind {
        FaultKind::Restart { proc: ProcId(0) }
    }
}

/// A fault, with the frame in which it comes.
#[derive(Clone, Copy, Default)]
pub struct Fault {
    pub frame: u32,
    pub kind: FaultKind,
}

/// A list of at most [`MAX_FAULTS`] faults, in order.
#[derive(Drop)]
pub struct Faults {
    faults: ArrayVec<Fault, MAX_FAULTS>,
}

impl std::marker::Model for Faults {
    ghost use Rattle.std.specs.Prelude.{List};
    ghost use Rattle.fault_family.specs.declared.faults.Fault.{Fault};

    ghost Value = { List Fault };

    ghost view = { λ s. s.faults.items };
}

impl Faults {
    ghost use Rattle.std.specs.Prelude.{◌≡◌, ◌++◌, ◌∷◌, ◌<◌, [], length};

    /// Returns the empty list.
    pub fn new() -> Faults
        ensures { result ≡ [] }
    {
        Faults {
            faults: ArrayVec::new(),
        }
    }

    /// Returns the faults, in order.
    pub fn as_slice(&self) -> &[Fault]
        ensures { result.now ≡ self.now }
    {
        self.faults.as_slice()
    }

    /// Returns the list with the fault appended. The list must contain fewer than [`MAX_FAULTS`] faults.
    pub fn with(&self, fault: &Fault) -> Faults
        requires { length self.now < 3 }
        ensures { result ≡ self.now ++ fault.now ∷ [] }
    {
        let mut faults = ArrayVec::new();
        let _fits = faults.try_extend_from_slice(self.faults.as_slice());
        faults.push(*fault);
        Faults { faults }
    }
}

// Returns the rank of a kind: changes first, then halts, then restarts.
fn rank(kind: &FaultKind) -> u8
    ensures { result ≡ rank kind.now }
{
    match kind {
        FaultKind::Change { .. } => 0,
        FaultKind::Halt { .. } => 1,
        FaultKind::Restart { .. } => 2,
    }
}

// Returns the number of the factor that changes, or of the processor that halts or restarts.
fn subject(kind: &FaultKind) -> u8
    ensures { result ≡ subject kind.now }
{
    match kind {
        FaultKind::Change { factor, .. } => factor.0,
        FaultKind::Halt { proc, .. } => proc.0,
        FaultKind::Restart { proc } => proc.0,
    }
}

// Returns the number of the value to which a factor changes, the step of a halt, or 0 for a restart.
fn detail(kind: &FaultKind) -> u8
    ensures { result ≡ detail kind.now }
{
    match kind {
        FaultKind::Change { value, .. } => *value,
        FaultKind::Halt { step, .. } => *step,
        FaultKind::Restart { .. } => 0,
    }
}

fn comes_after(last: u32, last_number: u8, next: u32, number: u8) -> bool
    ensures { result ≡ comes_after last last_number next number }
{
    last < next || last == next && last_number < number
}

/// Returns `true` if `fault` comes before `next`. The order is by frame, then by kind: changes before halts before
/// restarts. In one frame, changes are ordered by factor and then by value, halts by processor and then by step, and
/// restarts by processor.
pub fn precedes(fault: &Fault, next: &Fault) -> bool
    ensures { result ≡ precedes fault.now next.now }
{
    comes_after(fault.frame, rank(&fault.kind), next.frame, rank(&next.kind))
        || fault.frame == next.frame
            && rank(&fault.kind) == rank(&next.kind)
            && comes_after(
                u32::from(subject(&fault.kind)),
                detail(&fault.kind),
                u32::from(subject(&next.kind)),
                detail(&next.kind),
            )
}

/// Returns `true` if two faults are of a class that may come only once. The classes are the changes of one factor in
/// one frame, the halts of one processor, and the restarts of one processor.
pub fn repeats(fault: &Fault, next: &Fault) -> bool
    ensures { result ≡ repeats fault.now next.now }
{
    rank(&fault.kind) == rank(&next.kind)
        && subject(&fault.kind) == subject(&next.kind)
        && (rank(&fault.kind) != 0 || fault.frame == next.frame)
}

/// Returns `true` if the fault `next` may come after the fault `fault`: `next` comes later in the order and does not
/// repeat `fault`.
pub fn may_come_after(fault: &Fault, next: &Fault) -> bool
    ensures { result ≡ may_come_after next.now fault.now }
{
    precedes(fault, next) && !repeats(fault, next)
}
