//! The form `run`, which flies a mission with a thread for each processor.

ghost use Rattle.std.specs.Prelude.{◌≡◌, ◌∷◌, [], ◌<◌, ◌^◌, IfOk, length};
ghost use Rattle.frame_model.specs.Flights.{reports_of, rows_of};
ghost use Rattle.scram_io.specs.Outside.{Prints};
ghost use Rattle.form_base.specs.Answers.{Gives};
ghost use Rattle.form_base.specs.Endings.{Ends, IsTaken, PrintsAnswer};
ghost use Rattle.form_base.specs.declared.status.TheConstants.{ANSWERED};
ghost use Rattle.flight_forms.specs.Answers.{RunAnswers};
ghost use Rattle.flight_forms.specs.Texts.{flight_text, flown_text};

use crate::lines::make_fly_line;
use app_model::Boxes;
use coverage_check::Mission;
use form_base::mission_files::{MissionFiles, read_mission};
use form_base::printing::{print_refusal, status_after};
use form_base::refusals::Refusal;
use form_base::status::{ANSWERED, Status};
use scram_io::{Files, Sink, SinkFault};
use scram_types::{Flown, NoMemory, Spec};
use std::alloc::AllocGlobal;
use std::sync::Wait;
use std::thread::Threads;
use trace_text::put_trace;
use word_deck::WordFlight;

/// The kind of text that is printed for a flight.
#[derive(Clone, Copy)]
pub enum FlightText {
    /// The whole trace of the flight.
    Trace,
    /// The summary line of the mission generated from this number.
    Summary(u32),
}

/// Flies the mission of a specification and a script with a thread for each processor, and prints the trace of the
/// flight.
pub fn run<R: AllocGlobal + Threads + Wait + Sync, F: Files, K: Sink>(
    rt: &R,
    named: MissionFiles<'_>,
    files: &mut F,
    out: &mut K,
    boxes: Boxes,
) -> Status
    ensures { Ends (RunAnswers named.entry.specification.now named.entry.script.now) (named.entry.specification.now ∷ named.entry.script.now ∷ [])
        (F.state files.old) (F.state files.new) (IsTaken (K.state out.old) (K.state out.new) result.code) }
{
    match read_mission(rt.alloc(), named, files) {
        Ok(mission) => {
            let status = fly(rt, &mission, FlightText::Trace, out, boxes);
            drop(mission);
            status
        }
        Err(refusal) => {
            drop(boxes);
            print_refusal(out, &refusal)
        }
    }
}

/// Flies a mission with a thread for each processor, and prints the text of kind `told` for the flight.
pub fn fly<R: AllocGlobal + Threads + Wait + Sync, K: Sink>(
    rt: &R,
    mission: &Mission,
    told: FlightText,
    out: &mut K,
    boxes: Boxes,
) -> Status
    ensures { PrintsAnswer (Gives (ANSWERED, flight_text told mission.now)) (K.state out.old) (K.state out.new) result.code }
{
    match fly_on_threads(rt, mission, boxes) {
        Ok(flown) => {
            let status = print_flight(out, mission, &flown, told);
            drop(flown);
            status
        }
        Err(NoMemory) => print_refusal(out, &Refusal::out_of_memory()),
    }
}

// Returns the trace of a mission that is flown with a thread for each processor.
fn fly_on_threads<R: AllocGlobal + Threads + Wait + Sync>(
    rt: &R,
    mission: &Mission,
    boxes: Boxes,
) -> Result<Flown, NoMemory>
    ensures rows { IfOk result (λ flown. flown.rows ≡ rows_of mission.now.spec mission.now.script) }
    ensures reports { IfOk result (λ flown. flown.reports ≡ reports_of mission.now.spec mission.now.script) }
{
    let flight = WordFlight::open(rt.alloc(), mission, boxes)?;
    Ok(flight.run(rt).flown)
}

/// Prints the text of kind `told` for a mission. `flown` must have the rows and reports of the mission's one-thread
/// flight.
pub fn print_flight<K: Sink>(
    out: &mut K,
    mission: &Mission,
    flown: &Flown,
    told: FlightText,
) -> Status
    requires rows { flown.now.rows ≡ rows_of mission.now.spec mission.now.script }
    requires reports { flown.now.reports ≡ reports_of mission.now.spec mission.now.script }
    ensures { PrintsAnswer (Gives (ANSWERED, flight_text told mission.now)) (K.state out.old) (K.state out.new) result.code }
{
    mission.holds();
    status_after(put_flown(out, mission.spec(), flown, told), ANSWERED)
}

fn put_flown<K: Sink>(
    out: &mut K,
    spec: &Spec,
    flown: &Flown,
    told: FlightText,
) -> Result<(), SinkFault>
    requires rows { length flown.now.rows < 2 ^ 32 }
    requires reports { length flown.now.reports < 2 ^ 32 }
    ensures { Prints result (K.state out.old) (K.state out.new) (flown_text told spec.now flown.now.rows flown.now.reports) }
{
    match told {
        FlightText::Trace => put_trace(out, spec, flown.rows.items(), flown.reports.items()),
        FlightText::Summary(number) => out.put(make_fly_line(number, spec, flown).as_bytes()),
    }
}
