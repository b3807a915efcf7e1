//! Schedules in files.

ghost use Rattle.std.specs.Prelude.{◌≡◌};
ghost use Rattle.schedule_replay.specs.Refusals.{fault_line};
ghost use Rattle.schedule_replay.specs.declared.limits.TheConstants.{MAX_SCHEDULE_BYTES};
ghost use Rattle.form_base.specs.Refusals.{answer_of};
ghost use Rattle.form_base.specs.declared.status.TheConstants.{BROKEN_SCHEDULE};
ghost use Rattle.flight_forms.specs.Documents.{BreaksSchedule, SaysSchedule, long_schedule};

use bank_words::Event;
use form_base::loads::Document;
use form_base::refusals::{Refusal, Refused};
use schedule_replay::limits::MAX_SCHEDULE_BYTES;
use schedule_replay::refusals::make_fault_line;
use schedule_replay::{ScheduleError, ScheduleFault, read_schedule};
use scram_types::{List, Spec};
use std::alloc::Global;

/// The kind of document that holds a schedule for a specification.
#[derive(Clone, Copy)]
pub struct ScheduleDocument<'a> {
    pub spec: &'a Spec,
}

fn refuse_schedule(fault: ScheduleFault) -> Refusal
    ensures { answer_of result ≡ (BROKEN_SCHEDULE, fault_line fault) }
{
    Refusal::new(Refused::Schedule, make_fault_line(fault))
}

impl Document<List<Event>> for ScheduleDocument<'_> {
    ghost limit = { λ _. MAX_SCHEDULE_BYTES };

    ghost long = { λ _. long_schedule };

    ghost Says = { λ document. SaysSchedule document.spec.now };

    ghost Breaks = { λ document. BreaksSchedule document.spec.now };

    fn limit(&self) -> usize {
        MAX_SCHEDULE_BYTES
    }

    fn read(&self, alloc: Global, bytes: &[u8]) -> Result<List<Event>, Refusal> {
        match read_schedule(alloc, bytes, self.spec) {
            Ok(list) => Ok(List::of(list)),
            Err(ScheduleError::Fault(fault)) => Err(refuse_schedule(fault)),
            Err(ScheduleError::NoMemory) => Err(Refusal::out_of_memory()),
        }
    }

    fn too_long(&self) -> Refusal {
        refuse_schedule(ScheduleFault {
            line: 0,
            rule: schedule_replay::rule::TOO_LONG,
        })
    }
}
