//! The forms `gen` and `fly`, which print or fly the mission generated from a number.

ghost use Rattle.form_base.specs.Endings.{PrintsAnswer};
ghost use Rattle.flight_forms.specs.Answers.{FlyAnswers, GenAnswers, SummaryAnswers};
ghost use Rattle.fault_script.specs.Fits.{Fits};

use crate::runs::{FlightText, fly};
use app_model::Boxes;
use form_base::mission_files::make_mission;
use form_base::printing::{print_refusal, print_text};
use form_base::refusals::Refusal;
use form_base::status::{ANSWERED, Status};
use mission_gen::{generate, write_mission};
use scram_io::Sink;
use scram_types::{NoMemory, Script, Spec};
use std::alloc::{AllocGlobal, Global};
use std::sync::Wait;
use std::thread::Threads;

/// Prints the mission generated from a number, 0 to 999,999, as two lines: its specification and its script.
pub fn print_generated<K: Sink>(alloc: Global, number: u32, out: &mut K) -> Status
    ensures { PrintsAnswer (GenAnswers number) (K.state out.old) (K.state out.new) result.code }
{
    match generate(alloc, number) {
        Ok((spec, script)) => {
            // A use of a field proves that the specification satisfies its invariant.
            let _ = &spec.procs;
            let text = write_mission(alloc, &spec, &script);
            drop((spec, script));
            match text {
                Ok(text) => print_text(out, ANSWERED, &text),
                Err(NoMemory) => print_refusal(out, &Refusal::out_of_memory()),
            }
        }
        Err(NoMemory) => print_refusal(out, &Refusal::out_of_memory()),
    }
}

/// Flies the mission generated from a number, 0 to 999,999, and prints its summary.
pub fn fly_generated<R: AllocGlobal + Threads + Wait + Sync, K: Sink>(
    rt: &R,
    number: u32,
    out: &mut K,
    boxes: Boxes,
) -> Status
    ensures { PrintsAnswer (FlyAnswers number) (K.state out.old) (K.state out.new) result.code }
{
    match generate(rt.alloc(), number) {
        Ok((spec, script)) => {
            // A use of a field proves that the specification satisfies its invariant.
            let _ = &spec.procs;
            fly_parts(rt, number, (spec, script), out, boxes)
        }
        Err(NoMemory) => {
            drop(boxes);
            print_refusal(out, &Refusal::out_of_memory())
        }
    }
}

fn fly_parts<R: AllocGlobal + Threads + Wait + Sync, K: Sink>(
    rt: &R,
    number: u32,
    parts: (Spec, Script),
    out: &mut K,
    boxes: Boxes,
) -> Status
    requires { Fits parts.0 parts.1 }
    ensures { PrintsAnswer (SummaryAnswers number parts.0 parts.1) (K.state out.old) (K.state out.new) result.code }
{
    let (spec, script) = parts;
    match make_mission(rt.alloc(), spec, script) {
        Ok(mission) => {
            let status = fly(rt, &mission, FlightText::Summary(number), out, boxes);
            drop(mission);
            status
        }
        Err(refusal) => {
            drop(boxes);
            print_refusal(out, &refusal)
        }
    }
}
