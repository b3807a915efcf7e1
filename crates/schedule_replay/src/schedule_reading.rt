//! Reading a schedule from bytes.

ghost use Rattle.std.specs.Prelude.{◌≡◌, IfOk};
ghost use Rattle.schedule_replay.specs.Events.{HasEvents};
ghost use Rattle.schedule_replay.specs.Reading.{AnswersSchedule, schedule_fault, schedule_of};
ghost use Rattle.schedule_replay.specs.declared.schedule_reading.ScheduleError.TheVariants.{Fault};
ghost use Rattle.bank_words.specs.declared.events.Event.{Event};

use crate::event_lines::read_event;
use crate::limits::MAX_SCHEDULE_BYTES;
use crate::rule;
use bank_words::Event;
use scram_types::Spec;
use std::alloc::Global;
use trace_text::pieces::split_once;

/// The fault of a schedule: the number of the first line that breaks a rule, counted from 1, and the number of the
/// first rule that the line breaks. If the schedule is too long, the line is 0 and the rule is 5.
#[derive(Clone, Copy)]
pub struct ScheduleFault {
    pub line: u32,
    pub rule: u8,
}

/// The reason why bytes were not read as a schedule.
#[derive(Clone, Copy)]
pub enum ScheduleError {
    Fault(ScheduleFault),
    NoMemory,
}

/// Returns the events that the lines encode, in order. The specification has each of them.
///
/// # Errors
///
/// Returns an error with the first line that breaks a rule and the first rule that the line breaks. Returns
/// `NoMemory` if memory runs out.
pub fn read_schedule(alloc: Global, bytes: &[u8], spec: &Spec) -> Result<Vec<Event>, ScheduleError>
    ensures read { AnswersSchedule (schedule_of spec.now bytes.now) result }
    ensures known { IfOk result (λ list. HasEvents spec.now list.items) }
{
    if bytes.len() > MAX_SCHEDULE_BYTES {
        return Err(schedule_fault(0, rule::TOO_LONG));
    }
    let mut list = Vec::new(alloc);
    let mut line: u32 = 1;
    let mut rest = bytes;
    while let Some((text, behind)) = split_once(rest, b'\n') {
        match read_event(spec, text) {
            Ok(event) => match list.push(event) {
                Ok(()) => {}
                Err(_) => return Err(ScheduleError::NoMemory),
            },
            Err(rule) => return Err(schedule_fault(line, rule)),
        }
        rest = behind;
        line += 1;
    }
    if rest.is_empty() {
        Ok(list)
    } else {
        Err(schedule_fault(line, rule::BROKEN_LINE))
    }
}

fn schedule_fault(line: u32, rule: u8) -> ScheduleError
    ensures { result ≡ Fault (schedule_fault line rule) }
{
    ScheduleError::Fault(ScheduleFault { line, rule })
}
