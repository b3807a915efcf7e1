//! Processors with their last drafts. The fields are public because contracts refer to them.

ghost use Rattle.std.specs.Prelude.{◌≡◌, ◌<◌, false, length, true, None, Some, ℕ};
ghost use Rattle.fail_stop.specs.declared.flyers.Unit.TheVariants.{Up};
ghost use Rattle.fail_stop.specs.Flyers.{flyer_halted, flyer_started, is_down, unit_proc};
ghost use Rattle.lock_deck.specs.declared.made.Made.TheVariants.{Halted as HaltMade};
ghost use Rattle.lock_deck.specs.SharedCores.{IfSaw, IsDraftOf, IsSnapshotOf, is_start};
ghost use Rattle.lock_deck.specs.Members.{MemberFits};

use crate::made::Made;
use app_model::Rack;
use coverage_check::Mission;
use fail_stop::{Draft, Flyer, Snapshot};
use scram_types::ProcId;

/// A processor in flight, with its last draft, if there is one.
#[derive(Drop)]
pub struct Member {
    pub flyer: Flyer,
    pub drafted: Option<Draft>,
}

impl Member {
    /// Returns processor `proc` of the mission, live and without a draft. It has the boxes of `rack`, and those of
    /// `spare` for its restart.
    pub fn new(mission: &Mission, proc: ProcId, rack: Rack, spare: Rack) -> Member
        requires proc { proc.0 < length mission.now.spec.procs }
        ensures unit { result.flyer.unit ≡ Up (record { proc = proc; rack = rack }) }
        ensures spare { result.flyer.spare ≡ Some spare }
        ensures drafted { result.drafted ≡ None }
        ensures fits { MemberFits mission.now result }
    {
        mission.holds();
        Member {
            flyer: Flyer::new(proc, rack, spare),
            drafted: None,
        }
    }

    /// Returns the processor's number.
    pub(crate) fn proc(&self) -> ProcId
        ensures { result.0 ≡ unit_proc self.now.flyer.unit }
    {
        self.flyer.proc()
    }

    /// Acts on `made`, the result of a turn of this processor at the lock. The processor makes a draft of a returned
    /// snapshot, and halts if the turn was its halt. A start after a halt makes the processor live again with its
    /// spare rack.
    pub(crate) fn follow(&mut self, mission: &Mission, made: &Made)
        requires saw { IfSaw made.now (IsSnapshotOf mission.now) }
        requires fits { MemberFits mission.now self.old }
        ensures fits { MemberFits mission.now self.new }
        ensures proc { unit_proc self.new.flyer.unit ≡ unit_proc self.old.flyer.unit }
        ensures halts { (frame : ℕ) → made.now ≡ HaltMade frame → self.new.flyer ≡ flyer_halted frame self.old.flyer }
        ensures starts { is_start made.now ≡ true → self.new.flyer ≡ flyer_started self.old.flyer }
        ensures spare { is_start made.now ≡ false → self.new.flyer.spare ≡ self.old.flyer.spare }
    {
        match made {
            Made::Saw(snap) => self.draft(mission, snap),
            Made::Halted(frame) => self.halt(mission, *frame),
            Made::Started => self.start(mission),
            Made::Nothing => {}
            Made::Moved => {}
            Made::Done => {}
        }
    }

    // Sets the last draft to the processor's draft of `snap`, unless the processor has halted.
    fn draft(&mut self, mission: &Mission, snap: &Snapshot)
        requires saw { IsSnapshotOf mission.now snap.now }
        requires fits { MemberFits mission.now self.old }
        ensures fits { MemberFits mission.now self.new }
        ensures proc { unit_proc self.new.flyer.unit ≡ unit_proc self.old.flyer.unit }
        ensures spare { self.new.flyer.spare ≡ self.old.flyer.spare }
    {
        if !self.flyer.has_halted() {
            self.drafted = Some(draft_by(mission, &mut self.flyer, snap));
        }
    }

    #[tactic(auto, using(fail_stop::proofs::FlyersAt::number_halted))]
    fn halt(&mut self, mission: &Mission, frame: u32)
        requires { MemberFits mission.now self.old }
        ensures fits { MemberFits mission.now self.new }
        ensures proc { unit_proc self.new.flyer.unit ≡ unit_proc self.old.flyer.unit }
        ensures flyer { self.new.flyer ≡ flyer_halted frame self.old.flyer }
    {
        self.flyer.halt(frame);
    }

    #[tactic(auto, using(fail_stop::proofs::FlyersAt::number_started))]
    fn start(&mut self, mission: &Mission)
        requires { MemberFits mission.now self.old }
        ensures fits { MemberFits mission.now self.new }
        ensures proc { unit_proc self.new.flyer.unit ≡ unit_proc self.old.flyer.unit }
        ensures flyer { self.new.flyer ≡ flyer_started self.old.flyer }
    {
        mission.holds();
        self.flyer.start();
    }
}

// Returns the draft that `flyer`, a live processor of the mission, makes of `snap`.
fn draft_by(mission: &Mission, flyer: &mut Flyer, snap: &Snapshot) -> Draft
    requires lives { is_down flyer.old.unit ≡ false }
    requires known { unit_proc flyer.old.unit < length mission.now.spec.procs }
    requires saw { IsSnapshotOf mission.now snap.now }
    ensures draft { IsDraftOf mission.now (unit_proc flyer.old.unit) result }
    ensures proc { unit_proc flyer.new.unit ≡ unit_proc flyer.old.unit }
    ensures spare { flyer.new.spare ≡ flyer.old.spare }
{
    mission.holds();
    let mut image = [0; 64];
    flyer.draft(mission.spec(), snap, &mut image);
    Draft {
        frame: snap.kernel.frame,
        image,
    }
}
