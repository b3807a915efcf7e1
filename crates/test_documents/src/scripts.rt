//! Tests of the values of factors, the halts and the restarts of a script in a frame.

use fault_script::{factors_at, halt_in, halt_of, restart_of, up_at};
use scram_types::{Change, FactorId, HaltAt, List, ProcId, RestartAt, Script};
use std::alloc::{AllocError, Global};
use std::process::Abort;
use std::rt::HostRuntime;

// Returns a script in which factor 1 changes in frames 3 and 5. Processor 0 halts in frame 4 and stays down.
// Processor 1 halts in frame 2, restarts in frame 6 and halts again in that frame.
fn script(alloc: Global) -> Result<Script, AllocError> {
    let change = |frame, value| Change {
        frame,
        factor: FactorId(1),
        value,
    };
    let halt = |proc, frame, step| HaltAt {
        proc: ProcId(proc),
        frame,
        step,
    };
    let changes = Vec::from_slice(alloc, &[change(3, 2), change(5, 1)])?;
    let halts = Vec::from_slice(alloc, &[halt(1, 2, 0), halt(0, 4, 9), halt(1, 6, 3)])?;
    let restarts = Vec::from_slice(
        alloc,
        &[RestartAt {
            proc: ProcId(1),
            frame: 6,
        }],
    )?;
    Ok(Script {
        frames: 10,
        changes: List::of(changes),
        halts: List::of(halts),
        restarts: List::of(restarts),
    })
}

// Frames of the script, each with the value of factor 1, and with `true` for each of processors 0 and 1 that is up.
const FRAMES: [(u32, u8, bool, bool); 7] = [
    (0, 0, true, true),
    (2, 0, true, true),
    (3, 2, true, false),
    (4, 2, true, false),
    (5, 1, false, false),
    (6, 1, false, true),
    (7, 1, false, false),
];

// Returns the values of the factors in a frame, and whether processors 0 and 1 are up.
fn told(script: &Script, frame: u32) -> ([u8; 6], bool, bool) {
    (
        factors_at(script, frame),
        up_at(script, ProcId(0), frame),
        up_at(script, ProcId(1), frame),
    )
}

fn check_frames(rt: &impl Abort, script: &Script) {
    for (frame, value, up0, up1) in FRAMES {
        let want = ([0, value, 0, 0, 0, 0], up0, up1);
        assert_eq!(rt; told(script, frame), want, "in frame {frame}");
    }
}

#[test]
fn tells_values_and_who_is_up(rt: HostRuntime) -> Result<(), AllocError> {
    let script = script(rt.alloc())?;
    check_frames(&rt, &script);
    Ok(())
}

// Returns the frames of a processor's first halt and of its restart, or `None` for each that the script does not
// have.
fn halt_and_restart(script: &Script, proc: u8) -> (Option<u32>, Option<u32>) {
    let halt = match halt_of(script, ProcId(proc)) {
        Some(halt) => Some(halt.frame),
        None => None,
    };
    (halt, restart_of(script, ProcId(proc)))
}

// Returns the step of a processor's halt in a frame, or `None` if it does not halt in the frame.
fn step_in(script: &Script, proc: u8, frame: u32) -> Option<u8> {
    match halt_in(script, ProcId(proc), frame) {
        Some(halt) => Some(halt.step),
        None => None,
    }
}

fn check_halts(rt: &impl Abort, script: &Script) {
    for (proc, halt, restart) in [(0, Some(4), None), (1, Some(2), Some(6)), (2, None, None)] {
        assert_eq!(rt; halt_and_restart(script, proc), (halt, restart));
    }
    for (frame, step) in [(6, Some(3)), (4, None)] {
        assert_eq!(rt; step_in(script, 1, frame), step);
    }
}

#[test]
fn finds_halts_and_restarts(rt: HostRuntime) -> Result<(), AllocError> {
    let script = script(rt.alloc())?;
    check_halts(&rt, &script);
    Ok(())
}
