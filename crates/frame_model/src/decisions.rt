//! The kernel's decision at the start of a frame.

ghost use Rattle.std.specs.Prelude.{◌≡◌, ◌-◌};
ghost use Rattle.frame_model.specs.Decisions.{leave_for, moving_decision, stable_decision, turn_to, wanted};
ghost use Rattle.frame_model.specs.Frames.{state_of};
ghost use Rattle.frame_model.specs.Phases.{is_past};
ghost use Rattle.frame_model.specs.States.{mode_decided};

use crate::phases::{halting_frames, is_past};
use crate::systems::Sys;
use choice_table::{choose, runnable};
use scram_types::{ConfId, Env, KMode, Policy, Spec};

/// A reconfiguration under way, with the frame at whose start the kernel decides about it.
#[derive(Clone, Copy)]
struct Move {
    from: ConfId,
    halting: Option<ConfId>,
    to: ConfId,
    since: u32,
    frame: u32,
}

/// Returns the kernel's mode at the start of a frame, given the state before the frame and the frame's environment.
///
/// A stable configuration stays if the choice table chooses it, and is left otherwise. If a reconfiguration was
/// settled in the preceding frame and the row of that frame ran the target, the same rule applies to the target.
/// Otherwise the target stays if the policy still chooses it. If the policy chooses another target while a
/// configuration halts, only the target changes. After that, the phases begin anew. The old target halts first if the
/// preceding frame was settled, and nothing halts otherwise.
pub fn decide(spec: &Spec, sys: &Sys, env: &Env) -> KMode
    ensures { result ≡ mode_decided spec.now sys.now.frame env.now (state_of sys.now) }
{
    match sys.mode {
        KMode::Stable(c) => decide_stable(spec, c, sys.frame, env),
        KMode::Moving {
            from,
            halting,
            to,
            since,
        } => {
            if sys.settled {
                decide_stable(spec, to, sys.frame, env)
            } else {
                let wanted = wanted(spec, from, to, env);
                decide_moving(
                    spec,
                    &Move {
                        from,
                        halting,
                        to,
                        since,
                        frame: sys.frame,
                    },
                    wanted,
                )
            }
        }
    }
}

fn decide_stable(spec: &Spec, c: ConfId, frame: u32, env: &Env) -> KMode
    ensures { result ≡ stable_decision spec.now c frame env.now }
{
    leave_for(c, choose(spec, c, env), frame)
}

fn leave_for(c: ConfId, chosen: ConfId, frame: u32) -> KMode
    ensures { result ≡ leave_for c chosen frame }
{
    if chosen.0 == c.0 {
        KMode::Stable(c)
    } else {
        KMode::Moving {
            from: c,
            halting: Some(c),
            to: chosen,
            since: frame,
        }
    }
}

fn wanted(spec: &Spec, from: ConfId, to: ConfId, env: &Env) -> ConfId
    ensures { result ≡ wanted spec.now.policy spec.now from to env.now }
{
    match spec.policy {
        Policy::Retarget => choose(spec, from, env),
        Policy::Settle => {
            if runnable(spec, to, env) {
                to
            } else {
                choose(spec, from, env)
            }
        }
    }
}

fn decide_moving(spec: &Spec, under_way: &Move, wanted: ConfId) -> KMode
    ensures { let m = under_way.now in
        result ≡ moving_decision spec.now m.frame m.from m.halting m.to m.since (is_past spec.now m.halting m.to m.since (m.frame - 1)) wanted }
{
    if wanted.0 == under_way.to.0 {
        KMode::Moving {
            from: under_way.from,
            halting: under_way.halting,
            to: under_way.to,
            since: under_way.since,
        }
    } else {
        turn_to(spec, under_way, wanted)
    }
}

fn turn_to(spec: &Spec, under_way: &Move, wanted: ConfId) -> KMode
    ensures { let m = under_way.now in
        result ≡ turn_to spec.now m.frame m.from m.halting m.to m.since (is_past spec.now m.halting m.to m.since (m.frame - 1)) wanted }
{
    let Move {
        from,
        halting,
        to,
        since,
        frame,
    } = *under_way;
    if frame.saturating_sub(since) < halting_frames(spec, halting) {
        KMode::Moving {
            from,
            halting,
            to: wanted,
            since,
        }
    } else if is_past(spec, halting, to, since, frame.saturating_sub(1)) {
        KMode::Moving {
            from,
            halting: Some(to),
            to: wanted,
            since: frame,
        }
    } else {
        KMode::Moving {
            from,
            halting: None,
            to: wanted,
            since: frame,
        }
    }
}
