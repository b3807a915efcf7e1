//! The next event of an actor, given its place.

ghost use Rattle.std.specs.Prelude.{◌≡◌, ◌<◌, length, option_map, Some, None, if◌then◌else◌};
ghost use Rattle.scram_types.specs.Lookups.{proc_id};
ghost use Rattle.scram_types.specs.Scripts.{ScriptParts};
ghost use Rattle.scram_types.specs.Specification.{Parts};
ghost use Rattle.bank_words.specs.declared.events.Event.TheVariants.{KNote};
ghost use Rattle.scram_types.specs.declared.scripts.HaltAt.{HaltAt};
ghost use Rattle.fail_stop.specs.Events.{EndWord, halts_at, may_note, next_from, next_halted, next_kernel, next_of, plan, plan_step};
ghost use Rattle.fail_stop.specs.Listed.{stored_in, word_index_count};
ghost use Rattle.fail_stop.specs.ScriptFlights.{flight_of};
ghost use Rattle.event_core.specs.Places.{kept_place, machine_place, machine_places};

use crate::places::{Place, Places};
use bank_words::{Event, words};
use fail_stop::notes;
use fail_stop::words::end_index;
use fault_script::{halt_in, restart_of};
use scram_types::{HaltAt, ProcId, Script, Spec};

/// Returns the place of processor `p` in `procs`, or the opening place if `p` is past the end of `procs`.
pub(crate) fn kept_place(procs: &[Place; 8], p: ProcId) -> Place
    ensures { result ≡ kept_place procs.now p.0 }
{
    match procs.get(usize::from(p.0)) {
        Some(place) => *place,
        None => Place::At(0, 0),
    }
}

/// Returns the next event of processor `p`, given the places and the words, or `None` if there is none.
pub(crate) fn next_of(
    spec: &Spec,
    script: &Script,
    places: &Places,
    stored: &[u64],
    p: ProcId,
) -> Option<Event>
    requires { length stored.now ≡ word_index_count }
    ensures { result ≡ next_of (flight_of spec.now script.now) (machine_places places.now) (stored_in stored.now) p.0 }
{
    if usize::from(p.0) < spec.procs.items().len() {
        next_from(spec, script, p, stored[0], kept_place(&places.procs, p))
    } else {
        None
    }
}

fn next_from(spec: &Spec, script: &Script, p: ProcId, release: u64, place: Place) -> Option<Event>
    ensures { result ≡ next_from (flight_of spec.now script.now) p.0 release (machine_place place) }
{
    match place {
        Place::At(frame, step) => {
            if step > 0 {
                plan(spec, script, p, frame, step)
            } else if frame < script.frames && u64::from(frame) < release {
                Some(Event::Start(p))
            } else {
                None
            }
        }
        Place::Halted(frame) => next_halted(p, frame, release, restart_of(script, p)),
    }
}

fn plan(spec: &Spec, script: &Script, p: ProcId, frame: u32, step: u32) -> Option<Event>
    ensures { result ≡ plan (flight_of spec.now script.now) p.0 frame step }
{
    if halts_at(spec, step, halt_in(script, p, frame)) {
        Some(Event::Halt(p))
    } else {
        plan_step(spec, p, step)
    }
}

fn halts_at(spec: &Spec, step: u32, halt: Option<HaltAt>) -> bool
    ensures { (script : ScriptParts) → result ≡ halts_at (flight_of spec.now script) step (option_map (λ (halt : HaltAt). halt.step) halt) }
{
    match halt {
        Some(halt) => step == spec.procs.items().len() as u32 + 1 + u32::from(halt.step),
        None => false,
    }
}

fn plan_step(spec: &Spec, p: ProcId, step: u32) -> Option<Event>
    ensures { (script : ScriptParts) → result ≡ plan_step (flight_of spec.now script) p.0 step }
{
    let looks = spec.procs.items().len() as u32;
    let stores = words(spec);
    if step == 0 {
        Some(Event::Start(p))
    } else if step <= looks {
        Some(Event::Look(p, ProcId((step - 1) as u8)))
    } else if step < looks + 1 + stores {
        Some(Event::Store(p, (step - (looks + 1)) as u8))
    } else if step == looks + 1 + stores {
        Some(Event::Flip(p))
    } else if step == looks + 2 + stores {
        Some(Event::Done(p))
    } else {
        None
    }
}

fn next_halted(p: ProcId, frame: u32, release: u64, restart: Option<u32>) -> Option<Event>
    ensures { result ≡ next_halted p.0 frame release restart }
{
    match restart {
        Some(restart) => {
            if frame < restart && u64::from(restart) < release {
                Some(Event::Start(p))
            } else {
                None
            }
        }
        None => None,
    }
}

/// Returns the next event of the kernel, given the places and the words, or `None` if there is none.
pub(crate) fn next_kernel(
    spec: &Spec,
    script: &Script,
    places: &Places,
    stored: &[u64],
) -> Option<Event>
    requires { length stored.now ≡ word_index_count }
    ensures { result ≡ next_kernel (flight_of spec.now script.now) (machine_places places.now) (stored_in stored.now) }
{
    let procs = spec.procs.items().len() as u32;
    if places.frame >= script.frames {
        return None;
    }
    if places.step < procs {
        let p = ProcId(places.step as u8);
        return next_note(script, p, places.frame, end_in(stored, p));
    }
    if places.frame + 1 >= script.frames {
        return None;
    }
    if places.step < procs + 20 {
        Some(Event::KStore((places.step - procs) as u8))
    } else if places.step == procs + 20 {
        Some(Event::Release)
    } else {
        None
    }
}

fn next_note(script: &Script, p: ProcId, frame: u32, end: u64) -> Option<Event>
    ensures { (spec : Parts) → result ≡ (if may_note (flight_of spec script.now) p.0 frame end then Some (KNote (proc_id p.0)) else None) }
{
    if may_note(script, p, frame, end) {
        Some(Event::KNote(p))
    } else {
        None
    }
}

fn end_in(stored: &[u64], p: ProcId) -> u64
    requires stored { length stored.now ≡ word_index_count }
    requires p { p.0 < 8 }
    ensures { result ≡ stored_in stored.now (EndWord p.0) }
{
    stored[end_index(p)]
}

fn may_note(script: &Script, p: ProcId, frame: u32, end: u64) -> bool
    ensures { (spec : Parts) → result ≡ may_note (flight_of spec script.now) p.0 frame end }
{
    notes::may_note(restart_of(script, p), frame, end)
}
