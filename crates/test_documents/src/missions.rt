//! Tests that compare generated missions with values that are worked out by hand.

use mission_gen::{generate, uav};
use scram_types::{Change, HaltAt, Script};
use std::rt::HostRuntime;
use std::test::Fail;

/// Returns `true` if a change has the frame, the factor and the value of `worked`, in this order.
fn is_change(change: &Change, worked: &(u32, u8, u8)) -> bool {
    change.frame == worked.0 && change.factor.0 == worked.1 && change.value == worked.2
}

/// Returns `true` if `changes` begins with the changes in `worked`.
fn begin_with(changes: &[Change], worked: &[(u32, u8, u8)]) -> bool {
    worked.len() <= changes.len()
        && changes
            .iter()
            .zip(worked.iter())
            .all(|(change, worked)| is_change(change, worked))
}

/// Returns `true` if there is exactly one halt and its processor, frame and step are `proc`, `frame` and `step`.
fn is_only_halt(halts: &[HaltAt], proc: u8, frame: u32, step: u8) -> bool {
    match halts {
        [halt] => halt.proc.0 == proc && halt.frame == frame && halt.step == step,
        _ => false,
    }
}

// The frames, factors and values of the first five changes of mission 0.
const FIRST: [(u32, u8, u8); 5] = [
    (60, 0, 1),
    (126, 0, 0),
    (187, 0, 1),
    (187, 3, 1),
    (244, 1, 1),
];

// Returns four facts about a script: its number of frames, its number of changes, whether it begins with the first
// changes of mission 0, and whether its only halt is the halt of mission 0.
fn facts(script: &Script) -> (u32, usize, bool, bool) {
    let changes = script.changes.items();
    (
        script.frames,
        changes.len(),
        begin_with(changes, &FIRST),
        is_only_halt(script.halts.items(), 0, 306, 25),
    )
}

#[test]
fn the_first_mission_is_the_worked_one(rt: HostRuntime) -> Result<(), Fail> {
    let (spec, script) = generate(rt.alloc(), 0)?;
    let factors = spec.factors.items().len();
    drop(spec);
    let found = facts(&script);
    drop(script);
    assert_eq!(rt; factors, 6);
    assert_eq!(rt; found, (1000, 27, true, true));
    Ok(())
}

#[test]
fn the_aircraft_is_read(rt: HostRuntime) -> Result<(), Fail> {
    let spec = uav(rt.alloc())?;
    let found = (spec.confs.items().len(), spec.bounds.items().len());
    drop(spec);
    assert_eq!(rt; found, (5, 25));
    Ok(())
}
