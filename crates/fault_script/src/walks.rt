//! Walks along the frames of a script, and windows that count change frames.

ghost use Rattle.std.specs.Prelude.{◌≡◌, ◌+◌, ◌<◌, length, not};
ghost use Rattle.scram_types.specs.Bits.{bits_below};
ghost use Rattle.fault_script.specs.Assumption.{is_same_env};
ghost use Rattle.fault_script.specs.Fits.{Fits};
ghost use Rattle.fault_script.specs.Times.{is_up};
ghost use Rattle.fault_script.specs.Walks.{HaveCome, IsWalk, IsWhole, IsWindow, changed_values, newest, values_taken};

use crate::inputs::{Input, input_at};
use crate::times::up_at;
use scram_types::{Change, Env, ProcId, Script, Spec};

/// A walk along the frames of a script, which visits each change once. It contains its current frame and the
/// environment of that frame.
#[derive(Clone, Copy)]
pub struct Walk {
    pub frame: u32,
    pub env: Env,
    taken: usize,
}

impl Walk {
    ghost use Rattle.std.specs.Prelude.{◌≡◌, ◌+◌, ◌<◌};
    ghost use Rattle.scram_types.specs.Specification.{IsSpec};
    ghost use Rattle.fault_script.specs.Fits.{Fits};
    ghost use Rattle.fault_script.specs.Inputs.{input_at};
    ghost use Rattle.fault_script.specs.Walks.{IsWalk};

    /// Returns the walk at frame 0.
    pub fn first(spec: &Spec, script: &Script) -> Walk
        requires { Fits spec.now script.now }
        ensures { IsWalk spec.now script.now 0 result }
    {
        Walk {
            frame: 0,
            env: Env {
                up: up_set_at(spec, script, 0),
                factors: [0; 6],
            },
            taken: 0,
        }
    }

    /// Returns the walk at the next frame. A walk goes no further than the frame after the script's last frame.
    pub fn next(&self, spec: &Spec, script: &Script) -> Walk
        requires fits { Fits spec.now script.now }
        requires walk { IsWalk spec.now script.now self.now.frame self.now }
        requires frame { self.now.frame < script.now.frames }
        ensures { IsWalk spec.now script.now (self.now.frame + 1) result }
    {
        let frame = self.frame + 1;
        let (taken, factors) = take_changes(
            script.changes.items(),
            self.taken,
            self.env.factors,
            frame,
        );
        Walk {
            frame,
            env: Env {
                up: up_set_at(spec, script, frame),
                factors,
            },
            taken,
        }
    }

    /// Returns the input of the walk's current frame.
    pub fn input(&self, spec: &Spec, script: &Script) -> Input
        requires { IsWalk spec.now script.now self.now.frame self.now }
        ensures input { result ≡ input_at spec.now script.now self.now.frame }
        ensures known { IsSpec spec.now }
    {
        let factors = self.env.factors;
        input_at(spec, script, self.frame, &factors)
    }
}

// A window that ends with a frame. `changes` is the number of frames of the window that change the environment, and
// `changed` is `true` if the last frame of the window does. The walk `lead` is at the last frame of the window. The
// walk `trail` is at the frame before the window, or at frame 0.
#[derive(Clone, Copy)]
pub(crate) struct Window {
    lead: Walk,
    trail: Walk,
    pub(crate) changed: bool,
    pub(crate) changes: u32,
}

pub(crate) fn opening_window(spec: &Spec, script: &Script) -> Window
    requires { Fits spec.now script.now }
    ensures { IsWindow spec.now script.now 0 result }
{
    let walk = Walk::first(spec, script);
    Window {
        lead: walk,
        trail: walk,
        changed: false,
        changes: 0,
    }
}

// Returns the window that ends with the frame after `frame`, given the window that ends with `frame`.
pub(crate) fn next_window(spec: &Spec, script: &Script, window: &Window, frame: u32) -> Window
    requires fits { Fits spec.now script.now }
    requires window { IsWindow spec.now script.now frame window.now }
    requires frame { frame < script.now.frames }
    ensures { IsWindow spec.now script.now (frame + 1) result }
{
    let lead = window.lead.next(spec, script);
    let changed = differs(&window.lead.env, &lead.env);
    let changes = window.changes + u32::from(changed);
    if frame < spec.window {
        return Window {
            lead,
            trail: window.trail,
            changed,
            changes,
        };
    }
    let trail = window.trail.next(spec, script);
    let left = u32::from(differs(&window.trail.env, &trail.env));
    Window {
        lead,
        trail,
        changed,
        changes: changes - left,
    }
}

// Returns the number of changes up to a frame, and the factors' values after these changes. `before` and
// `values_before` are the number and the values for an earlier frame.
fn take_changes(
    changes: &[Change],
    before: usize,
    values_before: [u8; 6],
    frame: u32,
) -> (usize, [u8; 6])
    requires taken { HaveCome changes.now frame before }
    requires values { values_before ≡ values_taken changes.now before }
    ensures taken { HaveCome changes.now frame result.0 }
    ensures values { result.1 ≡ values_taken changes.now result.0 }
    ensures whole { IsWhole changes.now frame result.0 }
{
    let mut taken = before;
    let mut values = values_before;
    while taken < changes.len() && changes[taken].frame <= frame {
        values = with_change(&values, &changes[taken]);
        taken += 1;
    }
    (taken, values)
}

fn with_change(values: &[u8; 6], change: &Change) -> [u8; 6]
    ensures { result ≡ changed_values change.now values.now }
{
    [
        newest(change, 0, values[0]),
        newest(change, 1, values[1]),
        newest(change, 2, values[2]),
        newest(change, 3, values[3]),
        newest(change, 4, values[4]),
        newest(change, 5, values[5]),
    ]
}

fn newest(change: &Change, factor: u8, value: u8) -> u8
    ensures { result ≡ newest change.now factor value }
{
    if change.factor.0 == factor {
        change.value
    } else {
        value
    }
}

/// Returns `true` if two environments differ.
pub fn differs(env: &Env, other: &Env) -> bool
    ensures { result ≡ not (is_same_env env.now other.now) }
{
    !(env.up == other.up && env.factors == other.factors)
}

/// Returns the processors that are up in a frame, as bits.
pub fn up_set_at(spec: &Spec, script: &Script, frame: u32) -> u8
    ensures { result ≡ bits_below (λ p. is_up script.now p frame) (length spec.now.procs) }
{
    let mut up = 0;
    for p in 0..spec.procs.items().len() as u8 {
        if up_at(script, ProcId(p), frame) {
            up += 1 << p;
        }
    }
    up
}
