//! The phases of the kernel's mode.

ghost use Rattle.std.specs.Prelude.{◌≡◌, ◌<◌, replicate};
ghost use Rattle.frame_model.specs.declared.phases.Phase.TheVariants.{Running};
ghost use Rattle.frame_model.specs.Phases.{after_halting, halting_frames, is_past, moving_phase, offsets_in, phase_at, target};

use dep_order::timetable;
use scram_types::{ConfId, KMode, Spec};

/// The phase of a mode in a frame, with the configuration of the phase. The number is the index of the frame in the
/// phase, counted from 0.
#[derive(Clone, Copy)]
pub enum Phase {
    /// The configuration is to run.
    Running(ConfId),
    Halting(ConfId, u32),
    Preparing(ConfId, u32),
    Initialising(ConfId, u32),
}

/// A phase, with the frame of the phase in which the turn of each application begins. That frame is the application's
/// offset while a configuration halts or initialises, and 0 in the other phases.
#[derive(Clone, Copy)]
pub(crate) struct Stage {
    pub(crate) phase: Phase,
    pub(crate) offsets: [u16; 8],
}

/// Returns the phase of a mode in a frame. In a moving mode, a configuration halts first, if any. Then the target
/// prepares, initialises and runs.
pub fn phase_at(spec: &Spec, mode: &KMode, frame: u32) -> Phase
    ensures { result ≡ phase_at spec.now mode.now frame }
{
    stage_at(spec, mode, frame).phase
}

pub(crate) fn stage_at(spec: &Spec, mode: &KMode, frame: u32) -> Stage
    ensures phase { result.phase ≡ phase_at spec.now mode.now frame }
    ensures offsets { result.offsets ≡ offsets_in spec.now result.phase }
{
    match mode {
        KMode::Stable(c) => running_stage(*c),
        KMode::Moving {
            from: _,
            halting,
            to,
            since,
        } => moving_stage(spec, *halting, *to, frame.saturating_sub(*since)),
    }
}

fn running_stage(c: ConfId) -> Stage
    ensures { result ≡ record { phase = Running c; offsets = replicate 8 0 } }
{
    Stage {
        phase: Phase::Running(c),
        offsets: [0; 8],
    }
}

fn moving_stage(spec: &Spec, halting: Option<ConfId>, to: ConfId, age: u32) -> Stage
    ensures phase { result.phase ≡ moving_phase spec.now halting to age }
    ensures offsets { result.offsets ≡ offsets_in spec.now result.phase }
{
    match halting {
        Some(c) => {
            let times = timetable(spec, c);
            if age < u32::from(times.h) {
                let offsets = times.halt;
                Stage {
                    phase: Phase::Halting(c, age),
                    offsets,
                }
            } else {
                stage_after_halting(spec, to, age - u32::from(times.h))
            }
        }
        None => stage_after_halting(spec, to, age),
    }
}

fn stage_after_halting(spec: &Spec, to: ConfId, age: u32) -> Stage
    ensures phase { result.phase ≡ after_halting spec.now to age }
    ensures offsets { result.offsets ≡ offsets_in spec.now result.phase }
{
    let times = timetable(spec, to);
    if age < u32::from(times.p) {
        return Stage {
            phase: Phase::Preparing(to, age),
            offsets: [0; 8],
        };
    }
    let age = age - u32::from(times.p);
    if age < u32::from(times.i) {
        let offsets = times.init;
        return Stage {
            phase: Phase::Initialising(to, age),
            offsets,
        };
    }
    running_stage(to)
}

/// Returns the length of the halting phase in frames, or 0 if no configuration halts.
pub(crate) fn halting_frames(spec: &Spec, halting: Option<ConfId>) -> u32
    ensures frames { result ≡ halting_frames spec.now halting }
    ensures few { result < 65536 }
{
    match halting {
        Some(c) => u32::from(timetable(spec, c).h),
        None => 0,
    }
}

/// Returns the configuration that a mode runs or moves to.
pub fn target(mode: &KMode) -> ConfId
    ensures { result ≡ target mode.now }
{
    match mode {
        KMode::Stable(c) => *c,
        KMode::Moving {
            from: _,
            halting: _,
            to,
            since: _,
        } => *to,
    }
}

// Returns `true` if `frame` is past halting, preparing and initialising in a reconfiguration that began in frame
// `since`.
pub(crate) fn is_past(
    spec: &Spec,
    halting: Option<ConfId>,
    to: ConfId,
    since: u32,
    frame: u32,
) -> bool
    ensures { result ≡ is_past spec.now halting to since frame }
{
    let times = timetable(spec, to);
    halting_frames(spec, halting) + u32::from(times.p) + u32::from(times.i)
        <= frame.saturating_sub(since)
}
