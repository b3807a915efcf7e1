//! A pair with the list of its events.

use crate::events::PairEvent;
use crate::law::{pairs_hold, pairs_keep};
use crate::making::{is_at_end, make};
use crate::nexts::{frame_of, is_next, next_unit};
use crate::openings::opening_state;
use crate::setups::Setup;
use crate::sights::{images_decoded, snapshot};
use crate::states::PairState;
use fail_stop::Snapshot;
use scram_types::{Image, NoMemory, ProcId};
use std::alloc::Global;

/// A state of a pair, with the specification, the script, the halt of a unit, if there is one, and the events that
/// led to the state.
pub(crate) struct PairMachine<'a> {
    setup: Setup<'a>,
    state: PairState,
    events: Vec<PairEvent>,
}

// A derived drop is laid out in the proof of each function that drops the value, and this one is a call.
impl Drop for PairMachine<'_> {
    fn drop(self) {
        let PairMachine {
            setup: _,
            state: _,
            events: _,
        } = self;
    }
}

impl<'a> std::marker::Model for PairMachine<'a> {
    ghost use Rattle.std.specs.Prelude.{vec_capacity, vec_len};
    ghost use Rattle.kernel_pair.specs.Machines.{PairKeeps, PairParts, parts_of};

    ghost Value = { PairParts };

    ghost view = { λ k. parts_of k.setup.spec.now k.setup.script.now k.setup.halt k.state k.events.items };

    ghost invariant = { λ k. PairKeeps k.setup.spec.now k.setup.script.now k.setup.halt k.state k.events.items (vec_capacity k.events) (vec_len k.events) };
}

impl<'a> PairMachine<'a> {
    ghost use Rattle.std.specs.Prelude.{◌≡◌, ◌<◌, ◌+◌, ◌*◌, ℕ, [], IfOk, IsTrue, ◌↔◌, Some, is_some, vec_capacity, vec_len, length};
    ghost use Rattle.scram_types.specs.Specification.{IsSpec};
    ghost use Rattle.fault_script.specs.Fits.{Fits};
    ghost use Rattle.fail_stop.specs.Drafts.{IsSnapshot};
    ghost use Rattle.fail_stop.specs.Events.{At};
    ghost use Rattle.fail_stop.specs.ScriptFlights.{kernel_words};
    ghost use Rattle.scram_kernel.specs.Marks.{AreImages, AreMarks};
    ghost use Rattle.kernel_pair.specs.Cores.{places_in};
    ghost use Rattle.kernel_pair.specs.Kept.{PairKept};
    ghost use Rattle.kernel_pair.specs.Laws.{PairHolds};
    ghost use Rattle.kernel_pair.specs.Machines.{AreEventWords, HasNotedAll, IsPairNextIn, IsPairOverIn, IsPairStep, frame_to_make_in, next_unit_in, pair_flight, pair_in, unit_in};
    ghost use Rattle.kernel_pair.specs.Pairs.{IsPairOpening, IsPairReplay, next_unit};
    ghost use Rattle.kernel_pair.specs.declared.events.PairEvent.TheVariants.{Fly};

    /// Creates a pair at its opening, with room for every possible event. `first` must be the kernel's words of the
    /// first frame.
    ///
    /// # Errors
    ///
    /// Returns an error if memory runs out.
    pub(crate) fn open(
        alloc: Global,
        setup: &Setup<'a>,
        first: &[u64; 20],
    ) -> Result<PairMachine<'a>, NoMemory>
        requires fits { Fits setup.now.spec.now setup.now.script.now }
        requires first { first.now ≡ kernel_words setup.now.spec.now setup.now.script.now 0 }
        ensures spec { IfOk result (λ machine. machine.spec ≡ setup.now.spec.now) }
        ensures script { IfOk result (λ machine. machine.script ≡ setup.now.script.now) }
        ensures halt { IfOk result (λ machine. machine.halt ≡ setup.now.halt) }
        ensures opening { IfOk result (λ machine. IsPairOpening (pair_flight machine) (pair_in machine)) }
        ensures places { IfOk result (λ machine. (p : ℕ) → p < 8 → places_in (pair_in machine) p ≡ At 0 0) }
        ensures events { IfOk result (λ machine. machine.events ≡ []) }
    {
        let events = Vec::with_capacity(alloc, events_of(setup))?;
        let state = opening_state(alloc, setup.spec, setup.script, first)?;
        Ok(PairMachine {
            setup: *setup,
            state,
            events,
        })
    }

    /// States the facts that hold in the current state, and has no effect.
    pub(crate) fn holds(&self)
        ensures facts { IsSpec self.now.spec }
        ensures fits { Fits self.now.spec self.now.script }
        ensures kept { PairKept (pair_flight self.now) self.now.halt (pair_in self.now) }
        ensures holds { PairHolds self.now.spec self.now.script self.now.halt (pair_in self.now) }
    {
        let _state = &self.state;
        pairs_keep();
        pairs_hold();
    }

    /// Returns the specification, the script and the halt of the pair.
    pub(crate) fn setup(&self) -> Setup<'a>
        ensures spec { result.spec.now ≡ self.now.spec }
        ensures script { result.script.now ≡ self.now.script }
        ensures halt { result.halt ≡ self.now.halt }
    {
        self.setup
    }

    /// Returns the next event of unit `u`, or `None` if it has none.
    pub(crate) fn next(&self, u: u8) -> Option<PairEvent>
        requires { u < 2 }
        ensures { result ≡ next_unit_in self.now u }
    {
        next_unit(&self.setup, &self.state, u)
    }

    /// Returns `true` if `event` is a next event of its actor.
    pub(crate) fn is_next(&self, event: PairEvent) -> bool
        ensures { IsTrue result ↔ IsPairNextIn self.now event }
    {
        is_next(&self.setup, &self.state, event)
    }

    /// Makes `event`, which must be a next event of its actor. For a `Fly`, `draft` holds the words of the frame's
    /// draft. For a `Store`, `word` is the word to store. Other events use neither.
    pub(crate) fn make(&mut self, event: PairEvent, draft: &[u64; 64], word: u64)
        requires next { IsPairNextIn self.old event }
        requires words { AreEventWords (pair_flight self.old) (pair_in self.old) event draft.now word }
        ensures { IsPairStep self.old event self.new }
    {
        make(&self.setup, &mut self.state, event, draft, word);
        self.events.push_reserved(event);
    }

    /// Returns the frame that processor `p` makes next, or `None` if it has halted for good.
    pub(crate) fn frame_of(&self, p: ProcId) -> Option<u32>
        requires { p.0 < 8 }
        ensures { result ≡ frame_to_make_in self.now p.0 }
    {
        frame_of(self.setup.script, &self.state, p)
    }

    /// Returns the snapshot of processor `p`, which may make frame `frame` by the words of unit `u`.
    pub(crate) fn snapshot(&self, p: ProcId, u: u8, frame: u32) -> Snapshot
        requires next { IsPairNextIn self.now (Fly p u) }
        requires frame { frame_to_make_in self.now p.0 ≡ Some frame }
        ensures { IsSnapshot self.now.spec self.now.script frame result }
    {
        self.holds();
        let _p = p;
        snapshot(self.setup.spec, self.setup.script, &self.state, u, frame)
    }

    /// Returns `true` if unit `u` has noted every processor in the unit's frame.
    pub(crate) fn has_noted_all(&self, u: u8) -> bool
        requires { u < 2 }
        ensures { IsTrue result ↔ HasNotedAll self.now u }
    {
        let spec = self.setup.spec;
        spec.procs.items().len() <= usize::from(self.state.units[usize::from(u)].step)
    }

    /// Returns `true` if unit `u` has halted.
    pub(crate) fn has_halted(&self, u: u8) -> bool
        requires { u < 2 }
        ensures { result ≡ is_some (unit_in self.now u).stopped }
    {
        self.state.units[usize::from(u)].stopped.is_some()
    }

    /// Returns the marks that unit `u` has noted. The unit must have noted all processors in its frame.
    pub(crate) fn marks(&self, u: u8) -> [u64; 8]
        requires u { u < 2 }
        requires noted { HasNotedAll self.now u }
        ensures { AreMarks self.now.spec self.now.script ((unit_in self.now u).frame + 1) result }
    {
        self.holds();
        self.state.units[usize::from(u)].marks
    }

    /// Returns the images that unit `u` has noted. The unit must have noted all processors in its frame.
    pub(crate) fn images(&self, u: u8) -> [Image; 8]
        requires u { u < 2 }
        requires noted { HasNotedAll self.now u }
        ensures { AreImages self.now.spec self.now.script ((unit_in self.now u).frame + 1) result }
    {
        self.holds();
        images_decoded(self.setup.spec, &self.state.units[usize::from(u)].images)
    }

    /// Returns the events so far. They are a schedule from the opening to the current state.
    pub(crate) fn events(&self) -> &[PairEvent]
        ensures events { result.now ≡ self.now.events }
        ensures replay { IsPairReplay (pair_flight self.now) self.now.halt self.now.events (pair_in self.now) }
    {
        &self.events
    }

    /// Returns `true` if the pair is over, which means that no further event is possible.
    pub(crate) fn over(&self) -> bool
        ensures { IsTrue result ↔ IsPairOverIn self.now }
    {
        let Setup { spec, script, .. } = self.setup;
        script.frames == 0
            || is_at_end(spec, script, &self.state, 0) && is_at_end(spec, script, &self.state, 1)
    }
}

ghost use Rattle.std.specs.Prelude.{◌≡◌, ◌+◌, ◌*◌, length};
ghost use Rattle.scram_types.specs.Specification.{IsSpec};

// Returns the maximum number of events of a pair.
fn events_of(setup: &Setup) -> usize
    ensures known { IsSpec setup.now.spec.now }
    ensures events { result ≡ setup.now.script.now.frames * (3 * length setup.now.spec.now.procs + 46) + 1 }
{
    let Setup { spec, script, .. } = *setup;
    script.frames as usize * (3 * spec.procs.items().len() + 46) + 1
}
