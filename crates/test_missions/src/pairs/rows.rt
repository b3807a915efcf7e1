//! Flights to their end, compared with the flight on one thread.

ghost use Rattle.fault_script.specs.Fits.{Fits};

use crate::pairs::halts::{Halts, halt_of_row};
use app_model::empty_boxes;
use coverage_check::Mission;
use kernel_pair::{PairCore, UnitHalt, fly_on};
use scram_types::{Flown, Report, Script, Spec};
use std::io::{self, ErrorKind};
use std::rt::HostRuntime;
use test_kit::{fly_alone, is_same};

/// The number of flights, the number of flights whose result differs from the result on one thread, and the number of
/// events of all flights.
#[derive(Clone, Copy)]
struct Compared {
    flights: u32,
    other: u32,
    events: usize,
}

/// Flies the script of a row once on one thread and once with each of the row's halts, and prints the comparison.
pub(crate) fn fly_row(rt: &HostRuntime, mission: &Mission, row: &str) -> io::Result<()> {
    let single = fly_alone(rt.alloc(), mission)?;
    fly_all(rt, mission, row, &single)
}

fn fly_all(rt: &HostRuntime, mission: &Mission, row: &str, single: &Flown) -> io::Result<()> {
    let mut compared = Compared {
        flights: 0,
        other: 0,
        events: 0,
    };
    match Halts::of_row(row)? {
        Some(halts) => {
            for number in 0..halts.count() {
                compare(rt, mission, Some(halts.halt(number)), single, &mut compared)?;
            }
        }
        None => compare(rt, mission, halt_of_row(row)?, single, &mut compared)?,
    }
    println!(rt;
        "flights {}, unlike one thread {}, events {}",
        compared.flights, compared.other, compared.events
    )?;
    print_reports(rt, single.reports.items())
}

/// Flies a mission with the halt `halt`, if there is one. Compares the result with `single`, the result on one
/// thread.
fn compare(
    rt: &HostRuntime,
    mission: &Mission,
    halt: Option<UnitHalt>,
    single: &Flown,
    compared: &mut Compared,
) -> io::Result<()> {
    mission.holds();
    let (events, flown) = fly(rt, mission.spec(), mission.script(), halt)?;
    compared.flights = compared.flights.saturating_add(1);
    compared.events = compared.events.saturating_add(events);
    if !is_same(&flown, single) {
        compared.other = compared.other.saturating_add(1);
    }
    Ok(())
}

/// Flies a script on two units, and returns the number of events and the result of the flight.
fn fly(
    rt: &HostRuntime,
    spec: &Spec,
    script: &Script,
    halt: Option<UnitHalt>,
) -> io::Result<(usize, Flown)>
    requires { Fits spec.now script.now }
{
    let boxes = empty_boxes(rt.alloc())?;
    match PairCore::open(rt.alloc(), spec, script, halt, boxes) {
        Ok(mut core) => {
            fly_on(&mut core);
            let events = core.events().len();
            Ok((events, core.finish()))
        }
        Err(_) => Err(ErrorKind::OutOfMemory.into()),
    }
}

fn print_reports(rt: &HostRuntime, reports: &[Report]) -> io::Result<()> {
    for report in reports {
        println!(rt;
            "report {} > {:?} begin {} end {}",
            report.from.0, report.to, report.begin, report.end
        )?;
    }
    Ok(())
}
