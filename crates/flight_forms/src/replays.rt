//! The form `replay`, which flies a mission by a schedule. It uses no threads.

ghost use Rattle.std.specs.Prelude.{◌≡◌, ◌∷◌, []};
ghost use Rattle.fault_script.specs.Fits.{Fits};
ghost use Rattle.form_base.specs.Endings.{Ends, IsTaken, Prepares, PrintsAnswer};
ghost use Rattle.form_base.specs.Refusals.{answer_of};
ghost use Rattle.flight_forms.specs.Answers.{ListAnswers, ReplayAnswers, ScheduleAnswers, replay_refusal};
ghost use Rattle.form_base.specs.mission_files.Documents.{AsksScript};
ghost use Rattle.flight_forms.specs.Documents.{AsksSchedule};
ghost use Rattle.flight_forms.specs.Replays.{MakesReplay, GivesReplay};

use crate::documents::ScheduleDocument;
use crate::runs::{FlightText, print_flight};
use app_model::Boxes;
use bank_words::Event;
use coverage_check::Mission;
use form_base::loads::load;
use form_base::mission_files::{ScriptDocument, make_mission};
use form_base::printing::print_refusal;
use form_base::refusals::{Refusal, Refused};
use form_base::specifications::Specification;
use form_base::status::Status;
use schedule_replay::refusals::{make_illegal_line, make_short_line};
use schedule_replay::{ReplayError, replay};
use scram_io::{Files, Sink};
use scram_types::{List, Script, Spec};
use std::alloc::Global;

/// The names of the files of a mission, and the name of the file of the schedule by which the mission is flown.
#[derive(Clone, Copy)]
pub struct ReplayFiles<'a> {
    pub specification: &'a str,
    pub script: &'a str,
    pub schedule: &'a str,
}

/// A mission, and the events by which it is flown.
struct Replay {
    mission: Mission,
    list: List<Event>,
}

// A derived drop is laid out in the proof of each function that drops the value, and this one is a call.
impl Drop for Replay {
    fn drop(self) {
        let Replay {
            mission: _,
            list: _,
        } = self;
    }
}

/// Flies the mission of a specification and a script by a schedule, and prints the trace of the flight.
pub fn replay_form<F: Files, K: Sink>(
    alloc: Global,
    named: ReplayFiles<'_>,
    files: &mut F,
    out: &mut K,
    boxes: Boxes,
) -> Status
    ensures { Ends (ReplayAnswers named.entry.specification.now named.entry.script.now named.entry.schedule.now)
        (named.entry.specification.now ∷ named.entry.script.now ∷ named.entry.schedule.now ∷ [])
        (F.state files.old) (F.state files.new) (IsTaken (K.state out.old) (K.state out.new) result.code) }
{
    match read_replay(alloc, named, files) {
        Ok(replayed) => {
            let status = fly_replay(alloc, &replayed, out, boxes);
            drop(replayed);
            status
        }
        Err(refusal) => {
            drop(boxes);
            print_refusal(out, &refusal)
        }
    }
}

fn read_replay<F: Files>(
    alloc: Global,
    named: ReplayFiles<'_>,
    files: &mut F,
) -> Result<Replay, Refusal>
    ensures { Prepares (ReplayAnswers named.entry.specification.now named.entry.script.now named.entry.schedule.now) GivesReplay
        (named.entry.specification.now ∷ named.entry.script.now ∷ named.entry.schedule.now ∷ []) (F.state files.old) (F.state files.new) result }
{
    match load(alloc, &Specification, named.specification, files) {
        Ok(spec) => read_scheduled(alloc, spec, named, files),
        Err(refusal) => Err(refusal),
    }
}

fn read_scheduled<F: Files>(
    alloc: Global,
    spec: Spec,
    named: ReplayFiles<'_>,
    files: &mut F,
) -> Result<Replay, Refusal>
    ensures { Prepares (AsksScript spec named.entry.script.now (ScheduleAnswers named.entry.schedule.now spec)) GivesReplay
        (named.entry.script.now ∷ named.entry.schedule.now ∷ []) (F.state files.old) (F.state files.new) result }
{
    match load(alloc, &ScriptDocument { spec: &spec }, named.script, files) {
        Ok(script) => read_list(alloc, (spec, script), named.schedule, files),
        Err(refusal) => {
            drop(spec);
            Err(refusal)
        }
    }
}

fn read_list<F: Files>(
    alloc: Global,
    parts: (Spec, Script),
    schedule: &str,
    files: &mut F,
) -> Result<Replay, Refusal>
    requires { Fits parts.0 parts.1 }
    ensures { Prepares (AsksSchedule parts.0 schedule.now (ListAnswers parts.0 parts.1)) GivesReplay (schedule.now ∷ [])
        (F.state files.old) (F.state files.new) result }
{
    let (spec, script) = parts;
    match load(alloc, &ScheduleDocument { spec: &spec }, schedule, files) {
        Ok(list) => make_replay(alloc, spec, script, list),
        Err(refusal) => {
            drop((spec, script));
            Err(refusal)
        }
    }
}

fn make_replay(
    alloc: Global,
    spec: Spec,
    script: Script,
    list: List<Event>,
) -> Result<Replay, Refusal>
    requires { Fits spec script }
    ensures { MakesReplay spec script list result }
{
    match make_mission(alloc, spec, script) {
        Ok(mission) => Ok(Replay { mission, list }),
        Err(refusal) => {
            drop(list);
            Err(refusal)
        }
    }
}

fn fly_replay<K: Sink>(alloc: Global, replayed: &Replay, out: &mut K, boxes: Boxes) -> Status
    ensures { PrintsAnswer (GivesReplay replayed.now) (K.state out.old) (K.state out.new) result.code }
{
    let mission = &replayed.mission;
    mission.holds();
    let spec = mission.spec();
    let list = replayed.list.items();
    match replay(alloc, spec, mission.script(), boxes, list) {
        Ok(flown) => {
            let status = print_flight(out, mission, &flown, FlightText::Trace);
            drop(flown);
            status
        }
        Err(error) => print_refusal(out, &refusal_of(spec, error)),
    }
}

/// Returns the refusal for an error of a replay.
fn refusal_of(spec: &Spec, error: ReplayError) -> Refusal
    ensures { answer_of result ≡ replay_refusal spec.now error }
{
    match error {
        ReplayError::Illegal { index, given, next } => {
            Refusal::new(
                Refused::Schedule,
                make_illegal_line(spec, index, given, next),
            )
        }
        ReplayError::Short { events, next } => {
            Refusal::new(Refused::Schedule, make_short_line(spec, events, next))
        }
        ReplayError::NoMemory => Refusal::out_of_memory(),
    }
}
