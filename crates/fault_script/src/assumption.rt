//! The failure assumption: how many processors may be down at the same time, and how often the environment may
//! change.

ghost use Rattle.std.specs.Prelude.{◌≡◌, ◌≤◌, ◌+◌, ◌&&◌, nat_lt, None, Some, IfErr, OnOk};
ghost use Rattle.fault_script.specs.Fits.{Fits};
ghost use Rattle.fault_script.specs.Assumption.{WithinWhereNowhereOutside, brings_too_many_down, down_below, first_outside, has_too_many_down, outside_at};
ghost use Rattle.fault_script.specs.Walks.{IsWindow};

use crate::times::up_at;
use crate::walks::{Window, next_window, opening_window};
use scram_types::{ProcId, Script, Spec};

/// The way in which a script leaves the failure assumption: too many processors are down, or the environment changes
/// too often.
#[derive(Clone, Copy)]
pub enum OutsideKind {
    Halts,
    Changes,
}

/// The first frame with which a script leaves the failure assumption, and the way in which it does.
#[derive(Clone, Copy)]
pub struct Outside {
    pub frame: u32,
    pub kind: OutsideKind,
}

/// Checks that a script that fits the specification keeps to the specification's failure assumption. In every frame,
/// and in the frame after the last one, at most `halts` processors are down. Any `window` consecutive frames have at
/// most `changes + 1` frames whose environment differs from that of the preceding frame. A window may begin before
/// the first frame.
///
/// # Errors
///
/// Returns an error with the first frame that leaves the assumption. Either a processor that halts in that frame
/// brings too many processors down, or the environment changes in that frame once too often for the window that ends
/// with the frame.
pub fn within(spec: &Spec, script: &Script) -> Result<(), Outside>
    requires { Fits spec.now script.now }
    ensures within { OnOk result (first_outside spec.now script.now ≡ None) }
    ensures outside { IfErr result (λ outside. first_outside spec.now script.now ≡ Some outside) }
{
    let mut window = opening_window(spec, script);
    for frame in 0..script.frames {
        if let Some(outside) = outside_at(spec, script, &window, frame) {
            return Err(outside);
        }
        window = next_window(spec, script, &window, frame);
    }
    match outside_at(spec, script, &window, script.frames) {
        Some(outside) => Err(outside),
        None => Ok(()),
    }
}

// Returns a frame with the way in which it leaves the assumption, or `None` if it does not. `window` is the window
// that ends with the frame.
fn outside_at(spec: &Spec, script: &Script, window: &Window, frame: u32) -> Option<Outside>
    requires window { IsWindow spec.now script.now frame window.now }
    requires frame { frame ≤ script.now.frames }
    ensures { result ≡ outside_at spec.now script.now frame }
{
    if brings_too_many_down(spec, script, frame) {
        return Some(Outside {
            frame,
            kind: OutsideKind::Halts,
        });
    }
    if is_change_too_many(spec, window) {
        return Some(Outside {
            frame,
            kind: OutsideKind::Changes,
        });
    }
    None
}

// Returns `true` if too many processors are down in the frame after `frame`. Returns `false` if `frame` is the
// script's number of frames.
fn brings_too_many_down(spec: &Spec, script: &Script, frame: u32) -> bool
    requires { frame ≤ script.now.frames }
    ensures { result ≡ brings_too_many_down spec.now script.now frame }
{
    frame != script.frames && has_too_many_down(spec, script, frame + 1)
}

fn has_too_many_down(spec: &Spec, script: &Script, frame: u32) -> bool
    ensures { result ≡ has_too_many_down spec.now script.now frame }
{
    spec.halts < count_down(script, spec.procs.items().len() as u8, frame)
}

// Returns the number of the first `processors` processors that are down in a frame.
fn count_down(script: &Script, processors: u8, frame: u32) -> u8
    ensures value { result ≡ down_below script.now frame processors }
    ensures most { result ≤ processors }
{
    let mut down = 0;
    for p in 0..processors {
        if !up_at(script, ProcId(p), frame) {
            down += 1;
        }
    }
    down
}

fn is_change_too_many(spec: &Spec, window: &Window) -> bool
    ensures { result ≡ (window.now.changed && nat_lt (spec.now.changes + 1) window.now.changes) }
{
    window.changed && u32::from(spec.changes) + 1 < window.changes
}

/// States that a script keeps to the failure assumption if and only if no frame of it leaves the assumption.
pub fn within_where_nowhere_outside()
    ensures { WithinWhereNowhereOutside }
{}
