//! The flight of a schedule on one thread.

ghost use Rattle.std.specs.Prelude.{◌≡◌, ◌++◌, ◌∷◌, [], List, Err, IfErr, IfOk, IfSome, None, Some, length, slice_get, take};
ghost use Rattle.event_core.specs.Cores.{IsNextIn, IsWordIn, core_places, core_words, core_flight, IsOverIn};
ghost use Rattle.event_core.specs.Flyers.{FlyersFitAfter, FlyersFitCore};
ghost use Rattle.event_core.specs.Replays.{IsReplay};
ghost use Rattle.fault_script.specs.Fits.{Fits};
ghost use Rattle.schedule_replay.specs.declared.replays.ReplayError.TheVariants.{NoMemory as WantsMemory};
ghost use Rattle.schedule_replay.specs.Replaying.{AnswersReplay, first_next, next_below};
ghost use Rattle.event_core.specs.declared.cores.Illegal.{Illegal};
ghost use Rattle.bank_words.specs.declared.events.Event.{Event};

use app_model::Boxes;
use bank_words::Event;
use event_core::Core;
use event_core::flyers::Flyers;
use scram_types::{Flown, NoMemory, ProcId, Script, Spec};
use std::alloc::Global;

/// The reason why a list of events was not flown as a schedule to the end of the flight.
#[derive(Clone, Copy)]
pub enum ReplayError {
    /// The event at this index, counted from 0, is the first event of the list that is not the next of its actor.
    /// `next` is the actor's next event, or `None` if it has none.
    Illegal {
        index: u32,
        given: Event,
        next: Option<Event>,
    },
    /// All `events` events of the list were made, and the flight is not over. `next` is the next event of the first
    /// processor that has one, or the next event of the kernel if no processor has one.
    Short {
        events: u32,
        next: Event,
    },
    /// Memory has run out.
    NoMemory,
}

impl From<NoMemory> for ReplayError {
    ghost from_gives = { λ _ error. error ≡ WantsMemory };

    fn from(_wanting: NoMemory) -> ReplayError {
        ReplayError::NoMemory
    }
}

/// Flies a list of events as a schedule, on one thread, and returns the rows and reports of the flight. They are
/// those of the one-thread trace. The function does not block.
///
/// # Errors
///
/// Returns an error with the first event that is not the next of its actor. If the list ends before the flight is
/// over, returns an error with the event that would come next. Returns `NoMemory` if memory runs out.
pub fn replay(
    alloc: Global,
    spec: &Spec,
    script: &Script,
    boxes: Boxes,
    events: &[Event],
) -> Result<Flown, ReplayError>
    requires script { Fits spec.now script.now }
    ensures { AnswersReplay spec.now script.now events.now result }
{
    let core = Core::open(alloc, spec, script)?;
    let flyers = Flyers::open(alloc, boxes)?;
    let core = fly(core, spec, flyers, events)?;
    land(core, spec, events)
}

// Makes the events of a list in order, as long as each is the next of its actor.
fn fly<'a>(
    core: Core<'a>,
    spec: &Spec,
    flyers: Flyers,
    events: &[Event],
) -> Result<Core<'a>, ReplayError>
    requires spec { core.spec ≡ spec.now }
    requires opening { core.history ≡ [] }
    requires fits { FlyersFitCore core flyers }
    ensures spec { IfOk result (λ after. after.spec ≡ core.entry.spec) }
    ensures script { IfOk result (λ after. after.script ≡ core.entry.script) }
    ensures history { IfOk result (λ after. after.history ≡ events.now) }
    ensures refused { IfErr result (λ error. AnswersReplay core.entry.spec core.entry.script events.now (Err error)) }
{
    let mut core = core;
    let mut flyers = flyers;
    for event in events {
        match make(&mut core, spec, &mut flyers, *event) {
            Ok(()) => {}
            Err(error) => return Err(error),
        }
    }
    Ok(core)
}

// Makes an event if it is the next of its actor.
fn make(core: &mut Core, spec: &Spec, flyers: &mut Flyers, event: Event) -> Result<(), ReplayError>
    requires spec { core.old.spec ≡ spec.now }
    requires fits { FlyersFitCore core.old flyers.old }
    ensures spec { core.new.spec ≡ core.old.spec }
    ensures script { core.new.script ≡ core.old.script }
    ensures fits { IfOk result (λ _. FlyersFitCore core.new flyers.new) }
    ensures history { IfOk result (λ _. core.new.history ≡ core.old.history ++ event ∷ []) }
    ensures refused { (list : List Event) → take (length core.old.history) list ≡ core.old.history → slice_get list (length core.old.history) ≡ Some event
        → IfErr result (λ error. AnswersReplay core.old.spec core.old.script list (Err error)) }
{
    let index = events_made(core);
    let word = word_where_next(core, spec, flyers, event);
    match core.step(event, word) {
        Ok(()) => Ok(()),
        Err(illegal) => Err(ReplayError::Illegal {
            index,
            given: illegal.given,
            next: illegal.next,
        }),
    }
}

// Returns the number of events that were made. These events are a schedule.
fn events_made(core: &Core) -> u32
    ensures count { result ≡ length core.now.history }
    ensures schedule { IsReplay (core_flight core.now) core.now.history (core_places core.now) (core_words core.now) }
{
    core.history().len() as u32
}

// Returns the word that `Core::step` needs for an event, or 0 if the event is not the next of its actor.
fn word_where_next(core: &Core, spec: &Spec, flyers: &mut Flyers, event: Event) -> u64
    requires spec { core.now.spec ≡ spec.now }
    requires fits { FlyersFitCore core.now flyers.old }
    ensures word { IsNextIn core.now event → IsWordIn core.now event result }
    ensures fits { IsNextIn core.now event → FlyersFitAfter core.now event flyers.new }
{
    if core.next_of_actor(event) == Some(event) {
        flyers.word(core, spec, event)
    } else {
        0
    }
}

// Returns the rows and reports if the flight is over. Otherwise returns an error with the event that would come next.
fn land(core: Core, spec: &Spec, events: &[Event]) -> Result<Flown, ReplayError>
    requires spec { core.spec ≡ spec.now }
    requires history { core.history ≡ events.now }
    ensures { AnswersReplay core.entry.spec core.entry.script events.now result }
{
    match pending(&core, spec) {
        Some(next) => Err(ReplayError::Short {
            events: events_made(&core),
            next,
        }),
        None => Ok(core.finish()),
    }
}

// Returns the next event of the first processor that has one, or the next event of the kernel if no processor has
// one. Returns `None` if the flight is over.
fn pending(core: &Core, spec: &Spec) -> Option<Event>
    requires spec { core.now.spec ≡ spec.now }
    ensures over { result ≡ None → IsOverIn core.now }
    ensures going { IfSome result (λ _. IsOverIn core.now → ⊥) }
    ensures next { IfSome result (λ next. first_next (core_flight core.now) (core_places core.now) (core_words core.now) ≡ Some next) }
{
    if core.over() {
        return None;
    }
    core.goes_on();
    match next_below(core, spec.count_procs()) {
        Some(next) => Some(next),
        None => core.next_kernel(),
    }
}

fn next_below(core: &Core, procs: u8) -> Option<Event>
    ensures { result ≡ next_below (core_flight core.now) (core_places core.now) (core_words core.now) procs }
{
    for p in 0..procs {
        if let Some(next) = core.next_of(ProcId(p)) {
            return Some(next);
        }
    }
    None
}
