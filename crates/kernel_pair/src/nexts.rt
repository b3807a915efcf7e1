//! The next events of the actors.

ghost use Rattle.std.specs.Prelude.{◌≡◌, ℕ, ◌<◌, ◌≤◌, ◌+◌, length, nat_lt, ◌&&◌, if◌then◌else◌, Some, None, IsTrue, ◌↔◌};
ghost use Rattle.scram_types.specs.Lookups.{proc_id};
ghost use Rattle.fault_script.specs.Times.{restart_of};
ghost use Rattle.fail_stop.specs.Events.{may_note};
ghost use Rattle.kernel_pair.specs.Pairs.{IsPairNext, MakesReleased, frame_to_make, halts_below, is_at_halt, may_meet, next_unit, plan_noted, plan_unit, restart_past, stops_at};
ghost use Rattle.kernel_pair.specs.States.{end_word_in, flight_by, pair_of, stand_place};
ghost use Rattle.kernel_pair.specs.declared.events.PairEvent.TheVariants.{Fly, Note};
ghost use Rattle.kernel_pair.specs.declared.setups.Setup.{Setup};

use crate::events::{PairEvent, UnitHalt};
use crate::processors::{ProcessorState, Stand};
use crate::setups::Setup;
use crate::states::PairState;
use crate::units::UnitState;
use fail_stop::notes;
use fault_script::restart_of;
use scram_types::{ProcId, Script};

/// Returns `true` if `event` is a next event of its actor. The processor, unit or word of the event need not exist.
pub(crate) fn is_next(setup: &Setup, state: &PairState, event: PairEvent) -> bool
    ensures { IsTrue result ↔ IsPairNext (flight_by setup.now) setup.now.halt (pair_of state.now) event }
{
    match event {
        PairEvent::Fly(p, u) => is_fly_next(setup, state, p, u),
        PairEvent::Note(u, _) => is_unit_next(setup, state, u, event),
        PairEvent::Store(u, _) => is_unit_next(setup, state, u, event),
        PairEvent::Ready(u) => is_unit_next(setup, state, u, event),
        PairEvent::Meet(u) => is_unit_next(setup, state, u, event),
        PairEvent::Release(u) => is_unit_next(setup, state, u, event),
        PairEvent::Stop(u) => is_unit_next(setup, state, u, event),
    }
}

fn is_fly_next(setup: &Setup, state: &PairState, p: ProcId, u: u8) -> bool
    ensures { IsTrue result ↔ IsPairNext (flight_by setup.now) setup.now.halt (pair_of state.now) (Fly p u) }
{
    let spec = setup.spec;
    let procs = spec.procs.items().len();
    usize::from(p.0) < procs && (u < 2 && may_fly(setup.script, state, p, u))
}

fn may_fly(script: &Script, state: &PairState, p: ProcId, u: u8) -> bool
    requires p { p.0 < 8 }
    requires u { u < 2 }
    ensures { IsTrue result ↔ MakesReleased (restart_of script.now p.0) ((pair_of state.now).proc p.0).place ((pair_of state.now).unit u).release }
{
    is_below(frame_of(script, state, p), release_of(state, u))
}

/// Returns the frame that processor `p` makes next, or `None` if it has halted for good.
pub(crate) fn frame_of(script: &Script, state: &PairState, p: ProcId) -> Option<u32>
    requires { p.0 < 8 }
    ensures { result ≡ frame_to_make (restart_of script.now p.0) ((pair_of state.now).proc p.0).place }
{
    frame_to_make(script, p, state.procs[usize::from(p.0)].stand)
}

fn frame_to_make(script: &Script, p: ProcId, stand: Stand) -> Option<u32>
    ensures { result ≡ frame_to_make (restart_of script.now p.0) (stand_place stand) }
{
    match stand {
        Stand::Before(frame) => Some(frame),
        Stand::Halted(frame) => restart_past(frame, restart_of(script, p)),
    }
}

fn restart_past(frame: u32, restart: Option<u32>) -> Option<u32>
    ensures { result ≡ restart_past frame restart }
{
    match restart {
        Some(restart) => { if frame < restart { Some(restart) } else { None } }
        None => None,
    }
}

fn release_of(state: &PairState, u: u8) -> u64
    requires { u < 2 }
    ensures { result ≡ ((pair_of state.now).unit u).release }
{
    state.units[usize::from(u)].release
}

fn is_below(frame: Option<u32>, release: u64) -> bool
    ensures { IsTrue result ↔ ((f : ℕ) × (frame ≡ Some f) × (f < release)) }
{
    match frame {
        Some(frame) => u64::from(frame) < release,
        None => false,
    }
}

fn is_unit_next(setup: &Setup, state: &PairState, u: u8, event: PairEvent) -> bool
    ensures { IsTrue result ↔ ((u < 2) × (next_unit (flight_by setup.now) setup.now.halt (pair_of state.now) u ≡ Some event)) }
{
    u < 2 && next_unit(setup, state, u) == Some(event)
}

/// Returns the next event of unit `u`, or `None` if it has none.
pub(crate) fn next_unit(setup: &Setup, state: &PairState, u: u8) -> Option<PairEvent>
    requires { u < 2 }
    ensures { result ≡ next_unit (flight_by setup.now) setup.now.halt (pair_of state.now) u }
{
    let x = &state.units[usize::from(u)];
    let ready = state.units[usize::from(1 - u)].ready;
    let script = setup.script;
    if script.frames == 0 {
        None
    } else if x.stopped.is_some() {
        None
    } else if stops_at(setup, u, x.frame, x.step) {
        Some(PairEvent::Stop(u))
    } else {
        plan_unit(setup, &state.procs, u, x, ready)
    }
}

fn stops_at(setup: &Setup, u: u8, frame: u32, step: u8) -> bool
    ensures { result ≡ stops_at (flight_by setup.now) setup.now.halt u frame step }
{
    let script = setup.script;
    match setup.halt {
        Some(halt) => {
            u == halt.unit && (halt.frame < script.frames && is_halt_here(setup, halt, frame, step))
        }
        None => false,
    }
}

// Returns `true` if the flight allows `halt`, and a unit in frame `frame` after `step` steps has made exactly the
// steps before that halt.
fn is_halt_here(setup: &Setup, halt: UnitHalt, frame: u32, step: u8) -> bool
    ensures { result ≡ (nat_lt halt.step (halts_below (flight_by setup.now) halt.frame) && is_at_halt (flight_by setup.now) halt frame step) }
{
    u64::from(halt.step) < halts_below(setup, halt.frame) && is_at_halt(setup, halt, frame, step)
}

fn halts_below(setup: &Setup, frame: u32) -> u64
    ensures { result ≡ halts_below (flight_by setup.now) frame }
{
    let Setup { spec, script, .. } = *setup;
    let procs = spec.procs.items().len() as u64;
    if u64::from(frame) + 1 < u64::from(script.frames) {
        procs + 24
    } else {
        procs
    }
}

fn is_at_halt(setup: &Setup, halt: UnitHalt, frame: u32, step: u8) -> bool
    ensures { result ≡ is_at_halt (flight_by setup.now) halt frame step }
{
    let spec = setup.spec;
    let whole = spec.procs.items().len() as u64 + 23;
    frame == halt.frame && step == halt.step
        || u64::from(halt.step) == whole
            && (u64::from(frame) == u64::from(halt.frame) + 1 && step == 0)
}

fn plan_unit(
    setup: &Setup,
    procs: &[ProcessorState; 8],
    u: u8,
    x: &UnitState,
    ready: u64,
) -> Option<PairEvent>
    ensures { result ≡ plan_unit (flight_by setup.now) u x.now.frame x.now.step ready (λ p. end_word_in procs.now p) }
{
    let Setup { spec, script, .. } = *setup;
    let count = spec.procs.items().len();
    if usize::from(x.step) < count {
        next_note(setup, procs, u, x)
    } else if u64::from(x.frame) + 1 < u64::from(script.frames) {
        plan_noted(setup, u, x.frame, x.step, ready)
    } else {
        None
    }
}

fn next_note(setup: &Setup, procs: &[ProcessorState; 8], u: u8, x: &UnitState) -> Option<PairEvent>
    requires { x.now.step < 8 }
    ensures { result ≡ (if may_note (flight_by setup.now) x.now.step x.now.frame (end_word_in procs.now x.now.step)
        then Some (Note u (proc_id x.now.step)) else None) }
{
    if may_note(setup, x.step, x.frame, end_of(procs, x.step)) {
        Some(PairEvent::Note(u, ProcId(x.step)))
    } else {
        None
    }
}

fn may_note(setup: &Setup, p: u8, frame: u32, end: u64) -> bool
    ensures { result ≡ may_note (flight_by setup.now) p frame end }
{
    notes::may_note(restart_of(setup.script, ProcId(p)), frame, end)
}

fn end_of(procs: &[ProcessorState; 8], p: u8) -> u64
    requires { p < 8 }
    ensures { result ≡ end_word_in procs.now p }
{
    procs[usize::from(p)].end
}

fn plan_noted(setup: &Setup, u: u8, frame: u32, step: u8, ready: u64) -> Option<PairEvent>
    requires { length setup.now.spec.now.procs ≤ step }
    ensures { result ≡ plan_noted (flight_by setup.now) u frame step ready }
{
    let spec = setup.spec;
    let procs = spec.procs.items().len() as u64;
    let made = u64::from(step);
    if made < procs + 20 {
        Some(PairEvent::Store(u, (made - procs) as u8))
    } else if made == procs + 20 {
        Some(PairEvent::Ready(u))
    } else if made == procs + 21 {
        if may_meet(frame, ready) {
            Some(PairEvent::Meet(u))
        } else {
            None
        }
    } else if made == procs + 22 {
        Some(PairEvent::Release(u))
    } else {
        None
    }
}

fn may_meet(frame: u32, ready: u64) -> bool
    ensures { result ≡ may_meet frame ready }
{
    2 * (u64::from(frame) + 1) <= ready || ready % 2 == 1
}
