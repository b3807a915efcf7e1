//! The draft of the frame that a processor makes.

ghost use Rattle.std.specs.Prelude.{◌≡◌, ◌<◌, ℕ, Some, length, option_map, slice_index_or};
ghost use Rattle.fail_stop.specs.Drafts.{IsSnapshot};
ghost use Rattle.fail_stop.specs.Events.{Place, after_frame};
ghost use Rattle.fail_stop.specs.Flights.{word_in};
ghost use Rattle.fail_stop.specs.Flyers.{AreFlyersAt, IsFlyerAt, unit_proc};
ghost use Rattle.fail_stop.specs.ScriptFlights.{draft_words};
ghost use Rattle.scram_types.specs.Specification.{IsSpec};
ghost use Rattle.scram_types.specs.declared.scripts.HaltAt.{HaltAt};
ghost use Rattle.kernel_pair.specs.Cores.{flyer_after, places_in};
ghost use Rattle.kernel_pair.specs.Machines.{AreEventWords, IsPairNextIn, pair_flight, pair_in, pair_with};
ghost use Rattle.kernel_pair.specs.Pairs.{frame_to_make};
ghost use Rattle.kernel_pair.specs.declared.events.PairEvent.TheVariants.{Fly};
ghost use Rattle.kernel_pair.specs.States.{flight_by};
ghost use Rattle.kernel_pair.specs.declared.setups.Setup.{Setup};

use crate::machines::PairMachine;
use crate::setups::Setup;
use crate::sights::image_encoded;
use fail_stop::{Flyer, Snapshot};
use fault_script::halt_in;
use scram_types::{HaltAt, ProcId};

/// Makes the draft of processor `p` in its next frame by the words of unit `u`, and returns the words of the draft. A
/// processor that has halted restarts with its spare rack. A processor that halts in this frame drops its boxes.
pub(crate) fn draft(flyers: &mut [Flyer], machine: &PairMachine, p: ProcId, u: u8) -> [u64; 64]
    requires next { IsPairNextIn machine.now (Fly p u) }
    requires flyers { AreFlyersAt (pair_flight machine.now) (places_in (pair_in machine.now)) flyers.old }
    ensures words { AreEventWords (pair_flight machine.now) (pair_in machine.now) (Fly p u) result 0 }
    ensures flyers { AreFlyersAt (pair_flight machine.now) (places_in (pair_with machine.now (Fly p u))) flyers.new }
{
    machine.holds();
    let setup = machine.setup();
    match machine.frame_of(p) {
        Some(frame) => {
            let snap = machine.snapshot(p, u, frame);
            draft_frame(&mut flyers[usize::from(p.0)], &setup, p, frame, &snap)
        }
        None => [0; 64],
    }
}

// Returns the words of the draft of processor `p` in frame `frame`, given the snapshot of that frame.
fn draft_frame(
    flyer: &mut Flyer,
    setup: &Setup,
    p: ProcId,
    frame: u32,
    snap: &Snapshot,
) -> [u64; 64]
    requires facts { IsSpec setup.now.spec.now }
    requires known { p.0 < length setup.now.spec.now.procs }
    requires few { p.0 < 8 }
    requires stands { (place : Place) × IsFlyerAt (flight_by setup.now) p.0 place flyer.old
        × (frame_to_make ((flight_by setup.now).restart p.0) place ≡ Some frame) }
    requires snap { IsSnapshot setup.now.spec.now setup.now.script.now frame snap.now }
    ensures words { (i : ℕ) → slice_index_or result i 0 ≡ word_in (draft_words setup.now.spec.now setup.now.script.now p.0 frame) i }
    ensures flyer { IsFlyerAt (flight_by setup.now) p.0 (after_frame frame ((flight_by setup.now).halt p.0 frame)) flyer.new }
{
    flyer.start();
    let mut image = [0; 64];
    flyer.draft(setup.spec, snap, &mut image);
    halt_after(flyer, halt_in(setup.script, p, frame), frame);
    image_encoded(&image)
}

// Halts a processor in frame `frame` if `halt`, the processor's halt in that frame, is present.
fn halt_after(flyer: &mut Flyer, halt: Option<HaltAt>, frame: u32)
    requires { unit_proc flyer.old.unit < 8 }
    ensures { flyer.new ≡ flyer_after (option_map (λ (halt : HaltAt). halt.step) halt) frame flyer.old }
{
    match halt {
        Some(_) => flyer.halt(frame),
        None => {}
    }
}
