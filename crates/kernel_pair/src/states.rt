//! A state of a pair, and the effect of an event on it.

use crate::processors::ProcessorState;
use crate::setups::Setup;
use crate::units::UnitState;
use scram_types::ProcId;

/// The processors and the units of a pair.
#[derive(Clone, Copy)]
pub struct PairState {
    pub procs: [ProcessorState; 8],
    pub units: [UnitState; 2],
}

impl PairState {
    ghost use Rattle.std.specs.Prelude.{◌≡◌, ℕ, suc, ◌<◌, ◌≤◌, ◌+◌, ◌*◌, ◌^◌, length, slice_index_or};
    ghost use Rattle.fail_stop.specs.Flights.{Flight, word_in};
    ghost use Rattle.fail_stop.specs.ScriptFlights.{draft_words};
    ghost use Rattle.kernel_pair.specs.Pairs.{frame_made, noted, readied, released, stepped, stored, halted_unit, with_proc, with_unit};
    ghost use Rattle.kernel_pair.specs.States.{flight_by, pair_of};
    ghost use Rattle.kernel_pair.specs.declared.setups.Setup.{Setup};

    /// Makes frame `frame` of processor `p` with the words of `draft`.
    #[tactic(auto, using(crate::proofs::Setting::processor_with))]
    pub(crate) fn fly(&mut self, setup: &Setup, p: ProcId, frame: u32, draft: &[u64; 64])
        requires p { p.0 < 8 }
        requires narrow { 8 * length setup.now.spec.now.apps ≤ 64 }
        requires frame { frame + 1 < 2 ^ 32 }
        requires draft { (i : ℕ) → slice_index_or draft.now i 0 ≡ word_in (draft_words setup.now.spec.now setup.now.script.now p.0 frame) i }
        ensures { pair_of self.new ≡ with_proc (pair_of self.old) p.0 (frame_made (flight_by setup.now) p.0 frame ((pair_of self.old).proc p.0)) }
    {
        self.procs[usize::from(p.0)].fly(setup, p, frame, draft);
    }

    #[tactic(auto, using(crate::proofs::Setting::unit_with))]
    pub(crate) fn note(&mut self, u: u8, p: ProcId)
        requires u { u < 2 }
        requires p { p.0 < 8 }
        requires step { ((pair_of self.old).unit u).step < 255 }
        ensures { pair_of self.new ≡ with_unit (pair_of self.old) u (noted p.0 ((pair_of self.old).proc p.0) ((pair_of self.old).unit u)) }
    {
        self.units[usize::from(u)].note(p.0, &self.procs[usize::from(p.0)]);
    }

    #[tactic(auto, using(crate::proofs::Setting::unit_with))]
    pub(crate) fn store(&mut self, u: u8, i: u8, word: u64)
        requires u { u < 2 }
        requires step { ((pair_of self.old).unit u).step < 255 }
        requires i { i < 20 }
        ensures { (m : Flight) → word ≡ word_in (m.kernel_image (suc ((pair_of self.old).unit u).frame)) i
            → pair_of self.new ≡ with_unit (pair_of self.old) u (stored m i ((pair_of self.old).unit u)) }
    {
        self.units[usize::from(u)].store(i, word);
    }

    #[tactic(auto, using(crate::proofs::Setting::unit_with))]
    pub(crate) fn ready(&mut self, u: u8)
        requires u { u < 2 }
        requires step { ((pair_of self.old).unit u).step < 255 }
        ensures { pair_of self.new ≡ with_unit (pair_of self.old) u (readied ((pair_of self.old).unit u)) }
    {
        self.units[usize::from(u)].ready();
    }

    #[tactic(auto, using(crate::proofs::Setting::unit_with))]
    pub(crate) fn meet(&mut self, u: u8)
        requires u { u < 2 }
        requires step { ((pair_of self.old).unit u).step < 255 }
        ensures { pair_of self.new ≡ with_unit (pair_of self.old) u (stepped ((pair_of self.old).unit u)) }
    {
        self.units[usize::from(u)].meet();
    }

    #[tactic(auto, using(crate::proofs::Setting::unit_with))]
    pub(crate) fn release(&mut self, u: u8)
        requires u { u < 2 }
        requires frame { ((pair_of self.old).unit u).frame + 1 < 2 ^ 32 }
        ensures { pair_of self.new ≡ with_unit (pair_of self.old) u (released ((pair_of self.old).unit u)) }
    {
        self.units[usize::from(u)].release();
    }

    #[tactic(auto, using(crate::proofs::Setting::unit_with))]
    pub(crate) fn halt(&mut self, u: u8, frame: u32)
        requires u { u < 2 }
        ensures { pair_of self.new ≡ with_unit (pair_of self.old) u (halted_unit frame ((pair_of self.old).unit u)) }
    {
        self.units[usize::from(u)].halt(frame);
    }
}
