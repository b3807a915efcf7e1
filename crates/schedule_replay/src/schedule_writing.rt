//! Writing a schedule as text.

ghost use Rattle.std.specs.Prelude.{◌≡◌, ◌≤◌, IfOk, Ok, length};
ghost use Rattle.schedule_replay.specs.Events.{HasEvents, schedule_text};
ghost use Rattle.schedule_replay.specs.Reading.{schedule_of};
ghost use Rattle.schedule_replay.specs.declared.limits.TheConstants.{MAX_SCHEDULE_BYTES};
ghost use Rattle.bank_words.specs.declared.events.Event.{Event};

use crate::event_lines::make_event_line;
use bank_words::Event;
use scram_types::{NoMemory, Spec};
use std::alloc::Global;

/// Returns the text of a schedule, with a line for each event. If the text has at most `MAX_SCHEDULE_BYTES` bytes, the
/// same events are read back from it.
///
/// # Errors
///
/// Returns an error if memory runs out.
pub fn write_schedule(alloc: Global, events: &[Event], spec: &Spec) -> Result<Vec<u8>, NoMemory>
    requires { HasEvents spec.now events.now }
    ensures text { IfOk result (λ text. text.items ≡ schedule_text spec.now events.now) }
    ensures back { IfOk result (λ text. length text.items ≤ MAX_SCHEDULE_BYTES → schedule_of spec.now text.items ≡ Ok events.now) }
{
    // From the use of a field, the prover knows that the specification satisfies its invariant.
    let _ = &spec.procs;
    write_lines(alloc, events, spec)
}

fn write_lines(alloc: Global, events: &[Event], spec: &Spec) -> Result<Vec<u8>, NoMemory>
    ensures { IfOk result (λ text. text.items ≡ schedule_text spec.now events.now) }
{
    let mut text = Vec::new(alloc);
    for event in events {
        let line = make_event_line(spec, *event);
        text.extend_from_slice(line.as_bytes())?;
    }
    Ok(text)
}
