//! The outcome of a line, whose script is read, checked and flown.

ghost use Rattle.std.specs.Prelude.{◌≡◌, ◌⊎◌, IfOk};
ghost use Rattle.fault_script.specs.Assumption.{first_outside};
ghost use Rattle.fault_script.specs.Fits.{Fits};
ghost use Rattle.frame_model.specs.Flights.{reports_of, rows_of};
ghost use Rattle.flights_form.specs.Facts.{facts_of};
ghost use Rattle.flights_form.specs.Outcomes.{IsOutcome, memory_outcome, outcome_within};

use crate::facts::{FlightFacts, facts_of};
use app_model::racks::empty_racks;
use fault_script::{ScriptError, read_script, within};
use form_base::mission_files::{make_outside_line, make_script_line};
use frame_model::{reports, rows};
use scram_types::{NoMemory, Script, Spec};
use std::alloc::Global;
use trace_text::lines::Line;

/// The outcome of a line of the file.
#[derive(Drop)]
pub enum Outcome {
    /// The script was flown, and these are the facts of its flight.
    Flown(FlightFacts),
    /// The line was refused, and this is the line of the refusal.
    Refused(Line),
}

/// Reads the script in a line and returns the outcome. If the script keeps to the failure assumption, it is flown on
/// the caller's thread.
pub fn fly_line(alloc: Global, spec: &Spec, line: &[u8]) -> Outcome
    ensures { IsOutcome spec.now line.now result }
{
    match read_script(alloc, line, spec) {
        Ok(script) => {
            let outcome = fly_within(alloc, spec, &script);
            drop(script);
            outcome
        }
        Err(ScriptError::Fault(fault)) => Outcome::Refused(make_script_line(&fault)),
        Err(ScriptError::NoMemory) => out_of_memory(),
    }
}

fn fly_within(alloc: Global, spec: &Spec, script: &Script) -> Outcome
    requires { Fits spec.now script.now }
    ensures { (result ≡ outcome_within spec.now script.now (first_outside spec.now script.now)) ⊎ (result ≡ memory_outcome) }
{
    match within(spec, script) {
        Ok(()) => fly_on_one_thread(alloc, spec, script),
        Err(outside) => Outcome::Refused(make_outside_line(&outside)),
    }
}

fn fly_on_one_thread(alloc: Global, spec: &Spec, script: &Script) -> Outcome
    requires { Fits spec.now script.now }
    ensures { (result ≡ Outcome.Flown (facts_of spec.now (rows_of spec.now script.now) (reports_of spec.now script.now))) ⊎ (result ≡ memory_outcome) }
{
    match sum_up(alloc, spec, script) {
        Ok(facts) => Outcome::Flown(facts),
        Err(NoMemory) => out_of_memory(),
    }
}

// Flies a script, and returns the facts of the flight. The racks have no boxes, since the facts do not depend on the
// boxes.
#[tactic(auto, using(trace_props::proofs::Sizes::few_reports))]
fn sum_up(alloc: Global, spec: &Spec, script: &Script) -> Result<FlightFacts, NoMemory>
    requires { Fits spec.now script.now }
    ensures { IfOk result (λ facts. facts ≡ facts_of spec.now (rows_of spec.now script.now) (reports_of spec.now script.now)) }
{
    let rows = rows(alloc, spec, script, empty_racks(alloc)?)?;
    let reports = reports(alloc, spec, &rows)?;
    Ok(facts_of(spec, &rows, &reports))
}

fn out_of_memory() -> Outcome
    ensures { result ≡ memory_outcome }
{
    let mut line = Line::new();
    line.text(b"refused: memory\n");
    Outcome::Refused(line)
}
