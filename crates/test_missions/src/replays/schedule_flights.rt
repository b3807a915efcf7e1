//! The flight of a row's schedule.

ghost use Rattle.fault_script.specs.Fits.{Fits};
ghost use Rattle.schedule_replay.specs.Events.{HasEvents};

use crate::replays::answers::{print_answer, print_line};
use crate::replays::schedules::bytes_of;
use app_model::empty_boxes;
use bank_words::Event;
use schedule_replay::refusals::make_fault_line;
use schedule_replay::{ScheduleError, read_schedule, replay, write_schedule};
use scram_types::{Script, Spec};
use std::alloc::Global;
use std::io::{self, ErrorKind};
use std::rt::HostRuntime;
use test_kit::{line_after, script_of_text};

/// Flies the schedule of a row, and prints the result. If the schedule cannot be read, prints the line that refuses it.
pub fn answer_row(rt: &HostRuntime, spec: &Spec, row: &str) -> io::Result<()> {
    let script = script_of_text(rt.alloc(), spec, line_after(row, "= ").unwrap_or(""))?;
    let bytes = bytes_of(rt.alloc(), spec, &script, row)?;
    answer_bytes(rt, spec, &script, &bytes, row)
}

fn answer_bytes(
    rt: &HostRuntime,
    spec: &Spec,
    script: &Script,
    bytes: &[u8],
    row: &str,
) -> io::Result<()>
    requires { Fits spec.now script.now }
{
    match read_schedule(rt.alloc(), bytes, spec) {
        Ok(list) => answer_list(rt, spec, script, &list, row),
        Err(ScheduleError::Fault(fault)) => print_line(rt, &make_fault_line(fault)),
        Err(ScheduleError::NoMemory) => Err(ErrorKind::OutOfMemory.into()),
    }
}

fn answer_list(
    rt: &HostRuntime,
    spec: &Spec,
    script: &Script,
    list: &[Event],
    row: &str,
) -> io::Result<()>
    requires script { Fits spec.now script.now }
    requires known { HasEvents spec.now list.now }
{
    let read = if is_read_back(rt.alloc(), spec, list)? {
        "read back"
    } else {
        "not read back"
    };
    println!(rt; "events {}, {read}", list.len())?;
    fly(rt, spec, script, list, row)
}

/// Returns `true` if the schedule that is written for a list of events is read back to the same list.
fn is_read_back(alloc: Global, spec: &Spec, list: &[Event]) -> io::Result<bool>
    requires { HasEvents spec.now list.now }
{
    let Ok(text) = write_schedule(alloc, list, spec) else {
        return Err(ErrorKind::OutOfMemory.into());
    };
    match read_schedule(alloc, &text, spec) {
        Ok(back) => Ok(back.as_slice() == list),
        Err(ScheduleError::Fault(_)) => Ok(false),
        Err(ScheduleError::NoMemory) => Err(ErrorKind::OutOfMemory.into()),
    }
}

fn fly(rt: &HostRuntime, spec: &Spec, script: &Script, list: &[Event], row: &str) -> io::Result<()>
    requires { Fits spec.now script.now }
{
    let boxes = empty_boxes(rt.alloc())?;
    let answer = replay(rt.alloc(), spec, script, boxes, list);
    print_answer(rt, spec, &answer, row)
}
