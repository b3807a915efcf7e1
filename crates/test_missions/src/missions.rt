//! Missions that are accepted and then flown, both frame by frame and as a whole.

use crate::judgements::{parse_trace, print_judgement};
use coverage_check::{Mission, targets};
use scram_types::{ConfId, Flown, Spec};
use std::io;
use std::rt::HostRuntime;
use test_kit::{fly_alone, fly_frames, given, is_same, mission_of_texts};

/// Flies a mission frame by frame and as a whole on one thread. Prints the possible targets, whether each flight agrees
/// with a trace, and the judgement of the whole flight.
pub fn fly(rt: &HostRuntime, spec: &str, script: &str, trace: &str) -> io::Result<()> {
    let mission = mission_of_texts(rt.alloc(), spec, script)?;
    fly_mission(rt, &mission, trace)
}

fn fly_mission(rt: &HostRuntime, mission: &Mission, trace: &str) -> io::Result<()> {
    let wanted = parse_trace(rt.alloc(), trace, mission.spec())?;
    fly_both(rt, mission, &wanted)
}

fn fly_both(rt: &HostRuntime, mission: &Mission, wanted: &Flown) -> io::Result<()> {
    print_targets(rt, mission.spec())?;
    fly_rows(rt, mission, wanted)?;
    fly_whole(rt, mission, wanted)
}

/// Prints the possible targets of each configuration.
fn print_targets(rt: &HostRuntime, spec: &Spec) -> io::Result<()> {
    for (i, conf) in spec.confs.items().iter().enumerate() {
        print!(rt; "targets {}", conf.name)?;
        print_set(rt, spec, given(targets(rt.alloc(), spec, ConfId(i as u8)))?)?;
    }
    Ok(())
}

/// Prints the names of the configurations of a set. Bit `j` of the set belongs to configuration `j`.
fn print_set(rt: &HostRuntime, spec: &Spec, set: u16) -> io::Result<()> {
    for (j, conf) in spec.confs.items().iter().enumerate() {
        if j < 16 && set >> j & 1 == 1 {
            print!(rt; " {}", conf.name)?;
        }
    }
    println!(rt; "")
}

fn fly_rows(rt: &HostRuntime, mission: &Mission, wanted: &Flown) -> io::Result<()> {
    mission.holds();
    let flown = fly_frames(rt.alloc(), mission.spec(), mission.script())?;
    print!(rt;
        "rows {} reconfigurations {}, ",
        flown.rows.items().len(),
        flown.reports.items().len()
    )?;
    print_comparison(rt, &flown, wanted)
}

fn print_comparison(rt: &HostRuntime, flown: &Flown, wanted: &Flown) -> io::Result<()> {
    if is_same(flown, wanted) {
        println!(rt; "as wanted")
    } else {
        println!(rt; "not as wanted")
    }
}

fn fly_whole(rt: &HostRuntime, mission: &Mission, wanted: &Flown) -> io::Result<()> {
    let flown = fly_alone(rt.alloc(), mission)?;
    print!(rt; "one thread ")?;
    print_comparison(rt, &flown, wanted)?;
    print_judgement(
        rt,
        mission.spec(),
        flown.rows.items(),
        flown.reports.items(),
    )
}
