//! Flights to their end by many schedules, compared with each other and with the flight on one thread.

ghost use Rattle.fault_script.specs.Fits.{Fits};

use crate::choices::Rule;
use crate::halts::{Halt, Halts};
use crate::ruled::fly;
use crate::scripts::{rule_named, script_of};
use scram_types::{Flown, Report, Script, Spec};
use std::io::{self, ErrorKind};
use std::rt::HostRuntime;
use test_kit::{fly_frames, is_same, line_after, number_after};
use trace_props::props;

/// The results of the flights of a row. `flights` is the number of flights. `other` counts the flights whose result
/// differs from the result on one thread. `broken` counts the flights that are not judged `Ok`. `unlike` counts the
/// flights whose result differs from the result of the first flight. `events` and `first` are the number of events
/// and the result of the first flight.
#[derive(Drop)]
struct Compared {
    flights: u32,
    other: u32,
    broken: u32,
    unlike: u32,
    events: usize,
    first: Option<Flown>,
}

/// Flies each script of a row on one thread and by each rule and seed of the row, and prints the results. Does
/// nothing if the row has no rules.
pub(crate) fn fly_row(rt: &HostRuntime, spec: &Spec, row: &str) -> io::Result<()> {
    if line_after(row, "by ").is_none() {
        return Ok(());
    }
    let mut compared = Compared {
        flights: 0,
        other: 0,
        broken: 0,
        unlike: 0,
        events: 0,
        first: None,
    };
    let printed = fly_halts(rt, spec, row, &mut compared);
    drop(compared);
    printed
}

/// Flies the script of a row with each halt of the row, and prints the results.
fn fly_halts(rt: &HostRuntime, spec: &Spec, row: &str, compared: &mut Compared) -> io::Result<()> {
    let halts = Halts::of_row(row)?;
    for number in 0..halts.count() {
        fly_halt(rt, spec, row, halts.halt(number), compared)?;
    }
    print_compared(rt, row, compared)
}

/// A script with its specification, and the result of flying it on one thread.
#[derive(Drop)]
struct Case<'a> {
    spec: &'a Spec,
    script: &'a Script,
    alone: &'a Flown,
}

/// Flies the script of a row with one halt, and adds the results to `compared`.
fn fly_halt(
    rt: &HostRuntime,
    spec: &Spec,
    row: &str,
    halt: Halt,
    compared: &mut Compared,
) -> io::Result<()> {
    let script = script_of(rt.alloc(), spec, row, halt)?;
    let answer = fly_script(rt, spec, &script, row, compared);
    drop(script);
    answer
}

fn fly_script(
    rt: &HostRuntime,
    spec: &Spec,
    script: &Script,
    row: &str,
    compared: &mut Compared,
) -> io::Result<()>
    requires { Fits spec.now script.now }
{
    let alone = fly_frames(rt.alloc(), spec, script)?;
    let case = Case {
        spec,
        script,
        alone: &alone,
    };
    let answer = fly_case(rt, &case, row, compared);
    drop(alone);
    answer
}

fn fly_case(rt: &HostRuntime, case: &Case, row: &str, compared: &mut Compared) -> io::Result<()>
    requires { Fits case.now.spec.now case.now.script.now }
{
    for name in line_after(row, "by ").unwrap_or("").split(' ') {
        compare(rt, case, rule_named(name)?, compared)?;
    }
    for seed in 0..number_after(row, "seeds ", 0)? {
        compare(rt, case, Rule::Seeded(u64::from(seed)), compared)?;
    }
    Ok(())
}

/// Flies a script by a rule, judges the result, and compares it with the result on one thread and with the result of
/// the first flight.
fn compare(rt: &HostRuntime, case: &Case, rule: Rule, compared: &mut Compared) -> io::Result<()>
    requires { Fits case.now.spec.now case.now.script.now }
{
    let (events, flown) = fly_by(rt, case.spec, case.script, rule)?;
    count(case, &flown, compared);
    if compared.first.is_none() {
        compared.events = events;
        compared.first = Some(flown);
    } else {
        drop(flown);
    }
    Ok(())
}

/// Counts a flight, and each comparison or judgement that fails for it.
fn count(case: &Case, flown: &Flown, compared: &mut Compared) {
    compared.flights = compared.flights.saturating_add(1);
    if !is_same(case.alone, flown) {
        compared.other = compared.other.saturating_add(1);
    }
    if !is_judged_ok(case.spec, flown) {
        compared.broken = compared.broken.saturating_add(1);
    }
    if is_unlike(&compared.first, flown) {
        compared.unlike = compared.unlike.saturating_add(1);
    }
}

/// Flies a script to its end by a rule, and returns the number of events and the result.
fn fly_by(rt: &HostRuntime, spec: &Spec, script: &Script, rule: Rule) -> io::Result<(usize, Flown)>
    requires { Fits spec.now script.now }
{
    match fly(rt.alloc(), spec, script, rule) {
        Ok(core) => {
            let events = core.history().len();
            Ok((events, core.finish()))
        }
        Err(_) => Err(ErrorKind::OutOfMemory.into()),
    }
}

fn is_unlike(first: &Option<Flown>, flown: &Flown) -> bool {
    match first {
        Some(first) => !is_same(first, flown),
        None => false,
    }
}

fn is_judged_ok(spec: &Spec, flown: &Flown) -> bool {
    let rows = flown.rows.items();
    rows.len() <= 20_000 && props(spec, rows, flown.reports.items()).is_ok()
}

fn print_compared(rt: &HostRuntime, row: &str, compared: &Compared) -> io::Result<()> {
    println!(rt;
        "flights {}, unlike one thread {}, not judged Ok {}",
        compared.flights, compared.other, compared.broken
    )?;
    if line_after(row, "alike").is_none() {
        return Ok(());
    }
    println!(rt;
        "unlike the first {}, events of the first {}",
        compared.unlike, compared.events
    )?;
    match &compared.first {
        Some(first) => print_reports(rt, first.reports.items()),
        None => Ok(()),
    }
}

fn print_reports(rt: &HostRuntime, reports: &[Report]) -> io::Result<()> {
    for report in reports {
        let from = report.from.0;
        match report.to {
            Some(to) => println!(rt;
                "report {from} > {} begin {} end {}",
                to.0, report.begin, report.end
            )?,
            None => println!(rt; "report {from} > - begin {} end -", report.begin)?,
        }
    }
    Ok(())
}
