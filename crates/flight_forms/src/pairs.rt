//! The form `pair`, which flies a mission with the kernel on two units, one of which may halt. It uses no threads.

ghost use Rattle.std.specs.Prelude.{◌≡◌, ◌∷◌, [], IfOk};
ghost use Rattle.frame_model.specs.Flights.{reports_of, rows_of};
ghost use Rattle.form_base.specs.Answers.{Gives};
ghost use Rattle.form_base.specs.Endings.{Ends, IsTaken, PrintsAnswer};
ghost use Rattle.form_base.specs.declared.status.TheConstants.{ANSWERED};
ghost use Rattle.flight_forms.specs.Answers.{PairAnswers};
ghost use Rattle.flight_forms.specs.Texts.{flight_text};
ghost use Rattle.flight_forms.specs.declared.runs.FlightText.TheVariants.{Trace};

use crate::runs::{FlightText, print_flight};
use app_model::Boxes;
use coverage_check::Mission;
use form_base::mission_files::{MissionFiles, read_mission};
use form_base::printing::print_refusal;
use form_base::refusals::Refusal;
use form_base::status::Status;
use kernel_pair::{PairCore, UnitHalt, fly_on};
use scram_io::{Files, Sink};
use scram_types::{Flown, NoMemory};
use std::alloc::Global;

/// The names of the files of a mission, and the halt of a unit during the flight.
#[derive(Clone, Copy)]
pub struct PairFiles<'a> {
    pub specification: &'a str,
    pub script: &'a str,
    pub halt: UnitHalt,
}

/// Flies the mission of a specification and a script with the kernel on two units, one of which may halt. Prints the
/// trace of the flight.
pub fn pair_form<F: Files, K: Sink>(
    alloc: Global,
    named: PairFiles<'_>,
    files: &mut F,
    out: &mut K,
    boxes: Boxes,
) -> Status
    ensures { Ends (PairAnswers named.entry.specification.now named.entry.script.now) (named.entry.specification.now ∷ named.entry.script.now ∷ [])
        (F.state files.old) (F.state files.new) (IsTaken (K.state out.old) (K.state out.new) result.code) }
{
    let mission = MissionFiles {
        specification: named.specification,
        script: named.script,
    };
    match read_mission(alloc, mission, files) {
        Ok(mission) => {
            let status = fly_pair(alloc, &mission, named.halt, out, boxes);
            drop(mission);
            status
        }
        Err(refusal) => {
            drop(boxes);
            print_refusal(out, &refusal)
        }
    }
}

fn fly_pair<K: Sink>(
    alloc: Global,
    mission: &Mission,
    halt: UnitHalt,
    out: &mut K,
    boxes: Boxes,
) -> Status
    ensures { PrintsAnswer (Gives (ANSWERED, flight_text Trace mission.now)) (K.state out.old) (K.state out.new) result.code }
{
    match fly_on_units(alloc, mission, halt, boxes) {
        Ok(flown) => {
            let status = print_flight(out, mission, &flown, FlightText::Trace);
            drop(flown);
            status
        }
        Err(NoMemory) => print_refusal(out, &Refusal::out_of_memory()),
    }
}

// Returns the trace of a mission that is flown with the kernel on two units, one of which may halt. The function is
// not inlined, since its stack frame contains the states of the two units, which the other forms do not need.
#[inline(never)]
fn fly_on_units(
    alloc: Global,
    mission: &Mission,
    halt: UnitHalt,
    boxes: Boxes,
) -> Result<Flown, NoMemory>
    ensures rows { IfOk result (λ flown. flown.rows ≡ rows_of mission.now.spec mission.now.script) }
    ensures reports { IfOk result (λ flown. flown.reports ≡ reports_of mission.now.spec mission.now.script) }
{
    mission.holds();
    let mut core = PairCore::open(alloc, mission.spec(), mission.script(), Some(halt), boxes)?;
    fly_on(&mut core);
    Ok(core.finish())
}
