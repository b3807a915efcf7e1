//! The core of a flight under its lock. Nothing but the type is known about a value taken out of a lock. Therefore
//! the type names the mission.

ghost use Rattle.std.specs.Prelude.{◌≡◌, IfSome, None, Option, Some};
ghost use Rattle.coverage_check.specs.Missions.{MissionParts, mission_of};
ghost use Rattle.lock_deck.specs.SharedCores.{IfSaw, IsDraftOf, IsSnapshotOf};

use crate::made::Made;
use crate::members::Member;
use crate::steps::{make_kernel, make_step};
use bank_words::Event;
use event_core::Core;
use fail_stop::Draft;
use scram_types::ProcId;
use std::marker::{Brand, PhantomData};

/// The mission of a flight, as a type. Each call that flies a mission chooses a type of its own.
pub(crate) trait FlightOf {
    ghost mission: { Option MissionParts };
}

impl FlightOf for Brand {
    ghost mission = { None };
}

/// The core of a flight of the mission that the type `J` names.
#[derive(Drop)]
pub(crate) struct SharedCore<'a, J: FlightOf> {
    core: Core<'a>,
    flight: PhantomData<J>,
    ghost own: { J.mission ≡ Some (mission_of core.spec core.script) },
}

impl<'a, J: FlightOf> SharedCore<'a, J> {
    /// Creates a shared core from a core.
    pub(crate) fn new(core: Core<'a>) -> SharedCore<'a, J>
        requires { J.mission ≡ Some (mission_of core.spec core.script) }
    {
        SharedCore {
            core,
            flight: PhantomData,
        }
    }

    /// Returns the core.
    pub(crate) fn into_core(self) -> Core<'a>
        ensures { J.mission ≡ Some (mission_of result.spec result.script) }
    {
        self.core
    }

    /// Returns `true` if the flight is over and no further event is possible.
    pub(crate) fn is_over(&self) -> bool {
        self.core.over()
    }

    /// Returns `true` if the flight is not over and processor `p` has no next step.
    pub(crate) fn waits(&self, p: ProcId) -> bool {
        self.core.next_of(p).is_none() && !self.core.over()
    }

    /// Returns `true` if the flight is not over and neither the kernel nor any processor in `members` has a next
    /// step.
    pub(crate) fn all_wait(&self, members: &[Member]) -> bool {
        if self.core.next_kernel().is_some() || self.core.over() {
            return false;
        }
        for member in members {
            if self.core.next_of(member.proc()).is_some() {
                return false;
            }
        }
        true
    }

    /// Makes the next step of the kernel and returns it, or returns `None` if there is none.
    pub(crate) fn make_kernel(&mut self) -> Option<Event> {
        make_kernel(&mut self.core)
    }

    /// Makes the next step of processor `p`, if there is one, and returns the result. If a store is next and
    /// `drafted` is not a draft of the processor's current frame, makes no step and returns the snapshot of that
    /// frame.
    pub(crate) fn make_step(&mut self, p: ProcId, drafted: Option<&Draft>) -> Made
        requires { (mission : MissionParts) → J.mission ≡ Some mission → IfSome drafted (λ draft. IsDraftOf mission p.0 draft.now) }
        ensures { (mission : MissionParts) → J.mission ≡ Some mission → IfSaw result (IsSnapshotOf mission) }
    {
        make_step(&mut self.core, p, drafted)
    }
}
