//! Fault scripts: the faults of a flight and the frames in which they occur.

use crate::ids::{FactorId, ProcId};
use crate::lists::List;

/// A change of a factor: from frame `frame` on, the factor has this value, given as an index into the factor's
/// values.
#[derive(Clone, Copy)]
pub struct Change {
    pub frame: u32,
    pub factor: FactorId,
    pub value: u8,
}

/// A halt of a processor in a frame: after `step` stores if `step` is at most `W`, or after the processor's mark if
/// `step` is `W + 1`. `W` is eight times the number of applications.
#[derive(Clone, Copy)]
pub struct HaltAt {
    pub proc: ProcId,
    pub frame: u32,
    pub step: u8,
}

/// A restart: the processor, which was halted before, is up again from this frame on.
#[derive(Clone, Copy)]
pub struct RestartAt {
    pub proc: ProcId,
    pub frame: u32,
}

/// A fault script of at most 20,000 frames, with its changes, halts and restarts, each list in the order of frames.
pub struct Script {
    pub frames: u32,
    pub changes: List<Change>,
    pub halts: List<HaltAt>,
    pub restarts: List<RestartAt>,
}

// A derived drop is laid out in the proof of each function that drops the value, and this one is a call.
impl Drop for Script {
    fn drop(self) {
        let Script {
            frames: _,
            changes: _,
            halts: _,
            restarts: _,
        } = self;
    }
}

impl std::marker::Model for Script {
    ghost use Rattle.std.specs.Prelude.{◌≤◌};
    ghost use Rattle.scram_types.specs.declared.limits.TheConstants.{MAX_FRAMES};
    ghost use Rattle.scram_types.specs.Scripts.{ScriptParts};

    ghost Value = { ScriptParts };

    ghost view = { λ s. record { frames = s.frames; changes = s.changes; halts = s.halts; restarts = s.restarts } };

    ghost invariant = { λ s. s.frames ≤ MAX_FRAMES };
}
