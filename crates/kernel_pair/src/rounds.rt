//! The flight of a pair on one thread.

ghost use Rattle.std.specs.Prelude.{◌≡◌, ◌<◌, ℕ, None};
ghost use Rattle.kernel_pair.specs.Machines.{IsPairNextIn, IsPairOverIn, next_unit_in};
ghost use Rattle.kernel_pair.specs.Rounds.{IsFlownOn, left_in};
ghost use Rattle.kernel_pair.specs.declared.events.PairEvent.TheVariants.{Fly};

use crate::cores::PairCore;
use crate::events::PairEvent;
use scram_types::ProcId;

/// Makes all remaining events in rounds. In a round, each processor makes its next frame if some unit has released
/// that frame. Then unit 0 makes events until it has no next event, and then unit 1 does the same.
pub fn fly_on(core: &mut PairCore)
    ensures spec { core.new.spec ≡ core.old.spec }
    ensures script { core.new.script ≡ core.old.script }
    ensures over { IsPairOverIn core.new }
{
    'rounds: while !core.over() {
        fly_round(core);
    }
}

fn fly_round(core: &mut PairCore)
    requires { IsPairOverIn core.old → ⊥ }
    ensures spec { core.new.spec ≡ core.old.spec }
    ensures script { core.new.script ≡ core.old.script }
    ensures fewer { left_in core.new < left_in core.old }
{
    core.holds();
    for p in 0..8 {
        fly_processor(core, ProcId(p));
    }
    run_unit(core, 0);
    run_unit(core, 1);
}

// Makes the next frame of processor `p` if some unit has released that frame.
fn fly_processor(core: &mut PairCore, p: ProcId)
    ensures { IsFlownOn core.old core.new ((u : ℕ) → u < 2 → IsPairNextIn core.old (Fly p u) → ⊥) }
{
    attempt(core, PairEvent::Fly(p, 0));
    attempt(core, PairEvent::Fly(p, 1));
}

// Makes `event` if it is a next event of its actor.
fn attempt(core: &mut PairCore, event: PairEvent)
    ensures { IsFlownOn core.old core.new (IsPairNextIn core.old event → ⊥) }
{
    match core.step(event) {
        Ok(()) => {}
        Err(_) => {}
    }
}

// Makes the events of unit `u` until the unit has no next event.
fn run_unit(core: &mut PairCore, u: u8)
    requires { u < 2 }
    ensures { IsFlownOn core.old core.new (next_unit_in core.old u ≡ None) }
{
    while let Some(event) = core.next(u) {
        attempt(core, event);
    }
}
