//! Flights of a core by a rule, with processors whose racks have no boxes. With any rule, a flight to the end returns
//! a core whose flight is over.

ghost use Rattle.std.specs.Prelude.{◌≡◌, ◌<◌, ◌⊎◌, ◌++◌, [], ◌∷◌, IfOk, length};
ghost use Rattle.event_core.specs.Cores.{HappensIn, IsNextIn, IsOverIn, IsWordIn, events_left_in};
ghost use Rattle.event_core.specs.Flyers.{FlyersFitCore};
ghost use Rattle.fault_script.specs.Fits.{Fits};
ghost use Rattle.test_schedules.specs.Ruled.{IsFlownBy};

use crate::choices::{Chooser, Rule};
use app_model::empty_boxes;
use bank_words::Event;
use event_core::Core;
use event_core::flyers::Flyers;
use scram_types::{NoMemory, Script, Spec};
use std::alloc::Global;

/// Flies a script to the end by a rule, and returns the core. The flight of the core is over, and therefore `finish`
/// returns the one-thread trace.
///
/// # Errors
///
/// Returns an error if memory runs out.
pub fn fly<'a>(
    alloc: Global,
    spec: &'a Spec,
    script: &'a Script,
    rule: Rule,
) -> Result<Core<'a>, NoMemory>
    requires script { Fits spec.now script.now }
    ensures spec { IfOk result (λ core. core.spec ≡ spec.now) }
    ensures script { IfOk result (λ core. core.script ≡ script.now) }
    ensures rule { IfOk result (λ core. IsFlownBy rule core) }
    ensures over { IfOk result (λ core. IsOverIn core) }
{
    let boxes = empty_boxes(alloc)?;
    let core = Core::open(alloc, spec, script)?;
    let mut flyers = Flyers::open(alloc, boxes)?;
    Ok(fly_on(core, spec, &mut flyers, rule))
}

/// Flies a script by a rule for the given number of events, or for fewer if the flight is over earlier, and returns
/// the core.
///
/// # Errors
///
/// Returns an error if memory runs out.
pub fn fly_some<'a>(
    alloc: Global,
    spec: &'a Spec,
    script: &'a Script,
    rule: Rule,
    events: u32,
) -> Result<Core<'a>, NoMemory>
    requires script { Fits spec.now script.now }
    ensures spec { IfOk result (λ core. core.spec ≡ spec.now) }
    ensures script { IfOk result (λ core. core.script ≡ script.now) }
    ensures rule { IfOk result (λ core. IsFlownBy rule core) }
    ensures count { IfOk result (λ core. (length core.history ≡ events) ⊎ (IsOverIn core × (length core.history < events))) }
{
    let boxes = empty_boxes(alloc)?;
    let core = Core::open(alloc, spec, script)?;
    let mut flyers = Flyers::open(alloc, boxes)?;
    Ok(fly_events(core, spec, &mut flyers, rule, events))
}

// Flies `core` by a rule to the end of the flight, and returns the core.
fn fly_on<'a>(core: Core<'a>, spec: &Spec, flyers: &mut Flyers, rule: Rule) -> Core<'a>
    requires spec { core.spec ≡ spec.now }
    requires opened { core.history ≡ [] }
    requires fits { FlyersFitCore core flyers.old }
    ensures spec { result.spec ≡ core.entry.spec }
    ensures script { result.script ≡ core.entry.script }
    ensures rule { IsFlownBy rule result }
    ensures over { IsOverIn result }
{
    let mut core = core;
    let _opened = core.history();
    let mut chooser = Chooser::new(rule);
    let procs = spec.procs.items().len();
    while let Some(event) = chooser.choose(&core, procs) {
        make(&mut core, spec, flyers, event);
    }
    core
}

// Makes the given number of events of `core` by a rule, or fewer if the flight is over earlier, and returns the core.
fn fly_events<'a>(
    core: Core<'a>,
    spec: &Spec,
    flyers: &mut Flyers,
    rule: Rule,
    events: u32,
) -> Core<'a>
    requires spec { core.spec ≡ spec.now }
    requires opened { core.history ≡ [] }
    requires fits { FlyersFitCore core flyers.old }
    ensures spec { result.spec ≡ core.entry.spec }
    ensures script { result.script ≡ core.entry.script }
    ensures rule { IsFlownBy rule result }
    ensures count { (length result.history ≡ events) ⊎ (IsOverIn result × (length result.history < events)) }
{
    let mut core = core;
    let _opened = core.history();
    let mut chooser = Chooser::new(rule);
    let procs = spec.procs.items().len();
    for _event in 0..events {
        match chooser.choose(&core, procs) {
            Some(event) => make(&mut core, spec, flyers, event),
            None => return core,
        }
    }
    core
}

// Makes an event, which must be the next event of its actor. The word for the event is from `flyers`.
fn make(core: &mut Core, spec: &Spec, flyers: &mut Flyers, event: Event)
    requires spec { core.old.spec ≡ spec.now }
    requires next { IsNextIn core.old event }
    requires fits { FlyersFitCore core.old flyers.old }
    ensures spec { core.new.spec ≡ core.old.spec }
    ensures script { core.new.script ≡ core.old.script }
    ensures happens { HappensIn core.old event core.new }
    ensures history { core.new.history ≡ core.old.history ++ event ∷ [] }
    ensures fewer { events_left_in core.new < events_left_in core.old }
    ensures fits { FlyersFitCore core.new flyers.new }
{
    let word = flyers.word(core, spec, event);
    step(core, event, word);
}

// Makes an event with the given word. The event must be the next event of its actor.
fn step(core: &mut Core, event: Event, word: u64)
    requires next { IsNextIn core.old event }
    requires word { IsWordIn core.old event word }
    ensures spec { core.new.spec ≡ core.old.spec }
    ensures script { core.new.script ≡ core.old.script }
    ensures happens { HappensIn core.old event core.new }
    ensures history { core.new.history ≡ core.old.history ++ event ∷ [] }
    ensures fewer { events_left_in core.new < events_left_in core.old }
{
    match core.step(event, word) {
        Ok(()) => {}
        Err(_) => {}
    }
}
