//! The places of actors after an event.

ghost use Rattle.std.specs.Prelude.{◌≡◌, ℕ, ◌+◌, ◌<◌, nat_eq, if◌then◌else◌};
ghost use Rattle.scram_types.specs.Specification.{Parts};
ghost use Rattle.fail_stop.specs.Events.{frame_on, halted_there, moved, one_on, started};
ghost use Rattle.fail_stop.specs.Listed.{Moves};
ghost use Rattle.fail_stop.specs.ScriptFlights.{flight_of};
ghost use Rattle.event_core.specs.Places.{CanGoOn, kept_place, machine_place, machine_places};
ghost use Rattle.event_core.specs.Stores.{CanMove, IsInside};

use crate::nexts::kept_place;
use crate::places::{Place, Places};
use bank_words::Event;
use fault_script::restart_of;
use scram_types::{ProcId, Script};

/// Returns the place of processor `p` after an event of its own, given its place before the event.
fn moved(script: &Script, event: Event, p: ProcId, place: Place) -> Place
    requires { CanGoOn place }
    ensures { (spec : Parts) → machine_place result ≡ moved (flight_of spec script.now) event p.0 (machine_place place) }
{
    match event {
        Event::Start(_) => started(restart_of(script, p), place),
        Event::Look(_, _) => one_on(place),
        Event::Store(_, _) => one_on(place),
        Event::Flip(_) => one_on(place),
        Event::Done(_) => frame_on(place),
        Event::Halt(_) => halted_there(place),
        Event::KNote(_) => place,
        Event::KStore(_) => place,
        Event::Release => place,
    }
}

fn one_on(place: Place) -> Place
    requires { CanGoOn place }
    ensures { machine_place result ≡ one_on (machine_place place) }
{
    match place {
        Place::At(frame, step) => Place::At(frame, step + 1),
        Place::Halted(frame) => Place::Halted(frame),
    }
}

fn started(restart: Option<u32>, place: Place) -> Place
    requires { CanGoOn place }
    ensures { machine_place result ≡ started restart (machine_place place) }
{
    match place {
        Place::At(frame, step) => Place::At(frame, step + 1),
        Place::Halted(frame) => match restart {
            Some(restart) => Place::At(restart, 1),
            None => Place::Halted(frame),
        },
    }
}

fn frame_on(place: Place) -> Place
    requires { CanGoOn place }
    ensures { machine_place result ≡ frame_on (machine_place place) }
{
    match place {
        Place::At(frame, _) => Place::At(frame + 1, 0),
        Place::Halted(frame) => Place::Halted(frame),
    }
}

fn halted_there(place: Place) -> Place
    ensures { machine_place result ≡ halted_there (machine_place place) }
{
    match place {
        Place::At(frame, _) => Place::Halted(frame),
        Place::Halted(frame) => Place::Halted(frame),
    }
}

/// Returns the places of all actors after an event.
pub(crate) fn places_after(script: &Script, places: &Places, event: Event) -> Places
    requires event { IsInside event }
    requires room { CanMove places.now event }
    ensures { (spec : Parts) → Moves (flight_of spec script.now) (machine_places places.now) event (machine_places result) }
{
    match event {
        Event::Start(p) => with_proc(script, places, event, p),
        Event::Look(p, _) => with_proc(script, places, event, p),
        Event::Store(p, _) => with_proc(script, places, event, p),
        Event::Flip(p) => with_proc(script, places, event, p),
        Event::Done(p) => with_proc(script, places, event, p),
        Event::Halt(p) => with_proc(script, places, event, p),
        Event::KNote(_) => with_kernel(places, places.frame, places.step + 1),
        Event::KStore(_) => with_kernel(places, places.frame, places.step + 1),
        Event::Release => with_kernel(places, places.frame + 1, 0),
    }
}

fn with_kernel(places: &Places, frame: u32, step: u32) -> Places
    ensures procs { result.procs ≡ places.now.procs }
    ensures frame { result.frame ≡ frame }
    ensures step { result.step ≡ step }
{
    let procs = places.procs;
    Places { procs, frame, step }
}

#[tactic(auto, using(crate::proofs::Moving::proc_set))]
fn with_proc(script: &Script, places: &Places, event: Event, p: ProcId) -> Places
    requires p { p.0 < 8 }
    requires place { CanGoOn (kept_place places.now.procs p.0) }
    ensures procs { (spec : Parts) → (q : ℕ) → machine_place (kept_place result.procs q)
        ≡ (if nat_eq q p.0 then moved (flight_of spec script.now) event q (machine_place (kept_place places.now.procs q))
        else machine_place (kept_place places.now.procs q)) }
    ensures frame { result.frame ≡ places.now.frame }
    ensures step { result.step ≡ places.now.step }
{
    let mut procs = places.procs;
    procs[usize::from(p.0)] = moved(script, event, p, kept_place(&procs, p));
    Places {
        procs,
        frame: places.frame,
        step: places.step,
    }
}
