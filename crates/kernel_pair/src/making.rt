//! The effect of a next event on a state, and the end of a pair.

ghost use Rattle.std.specs.Prelude.{◌≡◌, ◌<◌, ◌+◌, Some, None, IsTrue, ◌↔◌};
ghost use Rattle.scram_types.specs.Specification.{IsSpec};
ghost use Rattle.fault_script.specs.Fits.{Fits};
ghost use Rattle.fail_stop.specs.ScriptFlights.{flight_of};
ghost use Rattle.kernel_pair.specs.Kept.{PairKept};
ghost use Rattle.kernel_pair.specs.Machines.{AreEventWords};
ghost use Rattle.kernel_pair.specs.Pairs.{IsAtEnd, IsPairNext, halt_frame, pair_after};
ghost use Rattle.kernel_pair.specs.States.{flight_by, pair_of, unit_of};
ghost use Rattle.kernel_pair.specs.declared.events.PairEvent.TheVariants.{Fly};
ghost use Rattle.kernel_pair.specs.declared.setups.Setup.{Setup};

use crate::events::{PairEvent, UnitHalt};
use crate::nexts::frame_of;
use crate::setups::Setup;
use crate::states::PairState;
use crate::units::UnitState;
use scram_types::{ProcId, Script, Spec};

/// Makes `event`, which must be a next event of its actor. For a `Fly`, `draft` holds the words of the frame's draft.
/// For a `Store`, `word` is the word to store. Other events use neither.
pub(crate) fn make(
    setup: &Setup,
    state: &mut PairState,
    event: PairEvent,
    draft: &[u64; 64],
    word: u64,
)
    requires facts { IsSpec setup.now.spec.now }
    requires fits { Fits setup.now.spec.now setup.now.script.now }
    requires kept { PairKept (flight_by setup.now) setup.now.halt (pair_of state.old) }
    requires next { IsPairNext (flight_by setup.now) setup.now.halt (pair_of state.old) event }
    requires words { AreEventWords (flight_by setup.now) (pair_of state.old) event draft.now word }
    ensures { pair_of state.new ≡ pair_after (flight_by setup.now) setup.now.halt (pair_of state.old) event }
{
    match event {
        PairEvent::Fly(p, u) => make_frame(setup, state, p, u, draft),
        PairEvent::Note(u, p) => state.note(u, p),
        PairEvent::Store(u, i) => state.store(u, i, word),
        PairEvent::Ready(u) => state.ready(u),
        PairEvent::Meet(u) => state.meet(u),
        PairEvent::Release(u) => state.release(u),
        PairEvent::Stop(u) => state.halt(u, halt_frame(setup.halt)),
    }
}

// Makes the next frame of processor `p` with the words of `draft`.
fn make_frame(setup: &Setup, state: &mut PairState, p: ProcId, u: u8, draft: &[u64; 64])
    requires facts { IsSpec setup.now.spec.now }
    requires fits { Fits setup.now.spec.now setup.now.script.now }
    requires kept { PairKept (flight_by setup.now) setup.now.halt (pair_of state.old) }
    requires next { IsPairNext (flight_by setup.now) setup.now.halt (pair_of state.old) (Fly p u) }
    requires words { AreEventWords (flight_by setup.now) (pair_of state.old) (Fly p u) draft.now 0 }
    ensures { pair_of state.new ≡ pair_after (flight_by setup.now) setup.now.halt (pair_of state.old) (Fly p u) }
{
    let _unit = u;
    if let Some(frame) = frame_of(setup.script, state, p) {
        state.fly(setup, p, frame, draft);
    }
}

fn halt_frame(halt: Option<UnitHalt>) -> u32
    ensures { result ≡ halt_frame halt }
{
    match halt {
        Some(halt) => halt.frame,
        None => 0,
    }
}

/// Returns `true` if unit `u` has made its last note or has halted.
pub(crate) fn is_at_end(spec: &Spec, script: &Script, state: &PairState, u: u8) -> bool
    requires { u < 2 }
    ensures { IsTrue result ↔ (((pair_of state.now).unit u).stopped ≡ None → IsAtEnd (flight_of spec.now script.now) ((pair_of state.now).unit u)) }
{
    ends(spec, script, &state.units[usize::from(u)])
}

fn ends(spec: &Spec, script: &Script, x: &UnitState) -> bool
    ensures { IsTrue result ↔ (x.now.stopped ≡ None → IsAtEnd (flight_of spec.now script.now) (unit_of x.now)) }
{
    match x.stopped {
        Some(_) => true,
        None => is_last(spec, script, x),
    }
}

fn is_last(spec: &Spec, script: &Script, x: &UnitState) -> bool
    ensures { IsTrue result ↔ IsAtEnd (flight_of spec.now script.now) (unit_of x.now) }
{
    u64::from(x.frame) + 1 == u64::from(script.frames)
        && spec.procs.items().len() <= usize::from(x.step)
}
