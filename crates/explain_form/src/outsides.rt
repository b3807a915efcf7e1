//! The reasons why a script violates the failure assumption.

ghost use Rattle.std.specs.Prelude.{◌≡◌, ◌+◌, ◌≤◌, ◌++◌, IfOk, OnOk};
ghost use Rattle.fault_script.specs.Assumption.{is_change_frame};
ghost use Rattle.fault_script.specs.Environments.{env_at};
ghost use Rattle.explain_form.specs.Outsides.{assumed_line, change_frame_text, too_many_changes_text, down_line, frame_text, change_frames_text, is_in_window, outside_text};

use fault_script::{Outside, OutsideKind, differs, factors_at, up_set_at};
use form_base::lines::add_down;
use scram_types::{Env, NoMemory, Script, Spec};
use std::alloc::{AllocError, Global};
use trace_text::lines::Line;

/// Returns the line with the reason why a script violates the failure assumption in frame `outside.frame`. For halts,
/// the line has the processors that are down in the next frame. For changes, the line has the change frames of the
/// window that ends with frame `outside.frame`. A change frame is a frame in which the environment changes.
///
/// # Errors
///
/// Returns an error if memory runs out.
pub(crate) fn make_outside(
    alloc: Global,
    spec: &Spec,
    script: &Script,
    outside: &Outside,
) -> Result<Vec<u8>, NoMemory>
    requires { outside.now.frame ≤ script.now.frames }
    ensures { IfOk result (λ text. text.items ≡ outside_text spec.now script.now outside.now) }
{
    // From the use of a field, the prover knows that the script has at most 20,000 frames.
    let _ = &script.frames;
    let mut text = Vec::new(alloc);
    match outside.kind {
        OutsideKind::Halts => {
            text.extend_from_slice(make_down_line(spec, script, outside.frame + 1).as_bytes())?;
        }
        OutsideKind::Changes => add_changes(&mut text, spec, script, outside.frame)?,
    }
    Ok(text)
}

// Returns the line of the processors that are down in frame `frame`. It ends with the maximum number of such
// processors that the assumption allows.
fn make_down_line(spec: &Spec, script: &Script, frame: u32) -> Line
    ensures { result ≡ down_line spec.now script.now frame }
{
    let mut line = Line::new();
    line.text(b"  down ");
    add_down(&mut line, spec, up_set_at(spec, script, frame));
    line.text(b", at most ");
    line.number(u32::from(spec.halts));
    line.text(b"\n");
    line
}

// Appends the line of the change frames of the window that ends with frame `last`. The line ends with the maximum
// number of change frames that the assumption allows in a window, and the window's length.
fn add_changes(
    text: &mut Vec<u8>,
    spec: &Spec,
    script: &Script,
    last: u32,
) -> Result<(), AllocError>
    requires { last ≤ 20000 }
    ensures { OnOk result (text.new.items ≡ text.old.items ++ too_many_changes_text spec.now script.now last) }
{
    add_change_frames(text, spec, script, last)?;
    text.extend_from_slice(make_assumed_line(spec).as_bytes())
}

fn add_change_frames(
    text: &mut Vec<u8>,
    spec: &Spec,
    script: &Script,
    last: u32,
) -> Result<(), AllocError>
    requires { last ≤ 20000 }
    ensures { OnOk result (text.new.items ≡ text.old.items ++ change_frames_text spec.now script.now last) }
{
    text.extend_from_slice(b"  frames")?;
    for frame in 0..last + 1 {
        add_change_frame(text, spec, script, last, frame)?;
    }
    Ok(())
}

// Appends a space and the number of frame `frame`, if the environment changes in this frame and the frame is at or
// after the start of the window that ends with frame `last`.
fn add_change_frame(
    text: &mut Vec<u8>,
    spec: &Spec,
    script: &Script,
    last: u32,
    frame: u32,
) -> Result<(), AllocError>
    requires { frame ≤ 20000 }
    ensures { OnOk result (text.new.items ≡ text.old.items ++ change_frame_text spec.now script.now last frame) }
{
    if is_in_window(spec, last, frame) && is_change_frame(spec, script, frame) {
        text.extend_from_slice(make_frame(frame).as_bytes())?;
    }
    Ok(())
}

fn make_frame(frame: u32) -> Line
    ensures { result ≡ frame_text frame }
{
    let mut line = Line::new();
    line.text(b" ");
    line.number(frame);
    line
}

// Returns the end of the line of change frames, with the maximum number of change frames that the assumption allows
// in a window, and the window's length.
fn make_assumed_line(spec: &Spec) -> Line
    ensures { result ≡ assumed_line spec.now }
{
    let mut line = Line::new();
    line.text(b" change, at most ");
    line.number(u32::from(spec.changes) + 1);
    line.text(b" in ");
    line.number(spec.window);
    line.text(b" frames\n");
    line
}

// Returns `true` if frame `frame` is at or after the start of the window that ends with frame `last`.
fn is_in_window(spec: &Spec, last: u32, frame: u32) -> bool
    requires { frame ≤ 20000 }
    ensures { result ≡ is_in_window spec.now last frame }
{
    last < frame + spec.window
}

fn is_change_frame(spec: &Spec, script: &Script, frame: u32) -> bool
    ensures { result ≡ is_change_frame spec.now script.now frame }
{
    if frame == 0 {
        return false;
    }
    differs(
        &env_at(spec, script, frame - 1),
        &env_at(spec, script, frame),
    )
}

fn env_at(spec: &Spec, script: &Script, frame: u32) -> Env
    ensures { result ≡ env_at spec.now script.now frame }
{
    Env {
        up: up_set_at(spec, script, frame),
        factors: factors_at(script, frame),
    }
}
