//! The refusals of schedules as lines, made without allocation.

ghost use Rattle.std.specs.Prelude.{◌≡◌, ◌+◌, ◌≤◌, ◌++◌, length};
ghost use Rattle.scram_types.specs.declared.limits.TheConstants.{MAX_LINE_BYTES};
ghost use Rattle.schedule_replay.specs.Refusals.{event_or_dash, fault_line, illegal_line, short_line};

use crate::event_lines::add_event;
use crate::schedule_reading::ScheduleFault;
use bank_words::Event;
use scram_types::Spec;
use trace_text::lines::Line;

/// Returns the refusal of a schedule's text that breaks a rule.
pub fn make_fault_line(fault: ScheduleFault) -> Line
    ensures { result ≡ fault_line fault }
{
    let mut line = Line::new();
    line.text(b"refused: schedule rule ");
    line.number(u32::from(fault.rule));
    line.text(b" at line ");
    line.number(fault.line);
    line.text(b"\n");
    line
}

/// Returns the refusal of an event that is not the next of its actor. The line has the event's index, counted from 0,
/// and the actor's next event, or `-` if there is none.
pub fn make_illegal_line(spec: &Spec, index: u32, given: Event, next: Option<Event>) -> Line
    ensures { result ≡ illegal_line spec.now index given next }
{
    let mut line = Line::new();
    line.text(b"refused: schedule event ");
    line.number(index);
    line.text(b" ");
    add_event(&mut line, spec, given);
    line.text(b" next ");
    add_event_or_dash(&mut line, spec, next);
    line.text(b"\n");
    line
}

/// Returns the refusal of a schedule of `events` events that ends before the flight is over. The line has the event
/// that would come next.
pub fn make_short_line(spec: &Spec, events: u32, next: Event) -> Line
    ensures { result ≡ short_line spec.now events next }
{
    let mut line = Line::new();
    line.text(b"refused: schedule ends after ");
    line.number(events);
    line.text(b" events next ");
    add_event(&mut line, spec, next);
    line.text(b"\n");
    line
}

fn add_event_or_dash(line: &mut Line, spec: &Spec, event: Option<Event>)
    requires { length line.old + 64 ≤ MAX_LINE_BYTES }
    ensures text { line.new ≡ line.old ++ event_or_dash spec.now event }
    ensures short { length line.new ≤ length line.old + 64 }
{
    match event {
        Some(event) => add_event(line, spec, event),
        None => line.text(b"-"),
    }
}
