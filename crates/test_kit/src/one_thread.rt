//! Flights on one thread, without boxes.

ghost use Rattle.std.specs.Prelude.{◌≡◌, IfOk, Ok};
ghost use Rattle.fault_script.specs.Fits.{Fits};
ghost use Rattle.frame_model.specs.Flights.{reports_of, rows_of};

use app_model::racks::empty_racks;
use coverage_check::Mission;
use frame_model::{reports, rows};
use scram_types::{Flown, List, NoMemory, Script, Spec};
use std::alloc::Global;
use std::io::{self, ErrorKind};
use trace_props::one_thread;

/// Returns the value of a result whose only error is out of memory.
///
/// # Errors
///
/// Returns the error `OutOfMemory` if the result is an error.
pub fn given<T>(answer: Result<T, NoMemory>) -> io::Result<T>
    ensures { IfOk result (λ value. answer ≡ Ok value) }
{
    match answer {
        Ok(value) => Ok(value),
        Err(_) => Err(ErrorKind::OutOfMemory.into()),
    }
}

/// Flies a mission on one thread, and returns its rows and reports.
///
/// # Errors
///
/// Returns an error if memory runs out.
pub fn fly_alone(alloc: Global, mission: &Mission) -> io::Result<Flown>
    ensures rows { IfOk result (λ flown. flown.rows ≡ rows_of mission.now.spec mission.now.script) }
    ensures reports { IfOk result (λ flown. flown.reports ≡ reports_of mission.now.spec mission.now.script) }
{
    let racks = empty_racks(alloc)?;
    given(one_thread(alloc, mission, racks))
}

/// Flies a script on one thread, and returns its rows and reports. The script need not keep to the failure
/// assumption.
///
/// # Errors
///
/// Returns an error if memory runs out.
pub fn fly_frames(alloc: Global, spec: &Spec, script: &Script) -> io::Result<Flown>
    requires { Fits spec.now script.now }
    ensures rows { IfOk result (λ flown. flown.rows ≡ rows_of spec.now script.now) }
    ensures reports { IfOk result (λ flown. flown.reports ≡ reports_of spec.now script.now) }
{
    let racks = empty_racks(alloc)?;
    let rows = given(rows(alloc, spec, script, racks))?;
    match reports(alloc, spec, &rows) {
        Ok(reports) => Ok(Flown {
            rows: List::of(rows),
            reports: List::of(reports),
        }),
        Err(_) => Err(ErrorKind::OutOfMemory.into()),
    }
}

/// Returns `true` if two flights have equal rows and reports.
pub fn is_same(one: &Flown, other: &Flown) -> bool {
    one.rows.items() == other.rows.items() && one.reports.items() == other.reports.items()
}
