//! Missions: an accepted specification with a script that keeps to the specification's failure assumption.

ghost use Rattle.coverage_check.specs.Keeping.{MissionsKeepScope};

use crate::acceptance::Accepted;
use fault_script::{Outside, within};
use scram_types::{Script, Spec};

/// An accepted specification, and a script that fits the specification and keeps to its failure assumption.
pub struct Mission {
    accepted: Accepted,
    script: Script,
}

// A derived drop is laid out in the proof of each function that drops the value, and this one is a call.
impl Drop for Mission {
    fn drop(self) {
        let Mission {
            accepted: _,
            script: _,
        } = self;
    }
}

impl std::marker::Model for Mission {
    ghost use Rattle.coverage_check.specs.Missions.{IsMission, MissionParts};

    ghost Value = { MissionParts };

    ghost view = { λ m. record { spec = m.accepted; script = m.script } };

    ghost invariant = { λ m. IsMission (record { spec = m.accepted; script = m.script }) };
}

/// The refusal of a script: the first frame in which the script leaves the failure assumption, with the specification
/// and the script.
pub struct NotWithin {
    pub accepted: Accepted,
    pub script: Script,
    pub outside: Outside,
}

// A derived drop is laid out in the proof of each function that drops the value, and this one is a call.
impl Drop for NotWithin {
    fn drop(self) {
        let NotWithin {
            accepted: _,
            script: _,
            outside: _,
        } = self;
    }
}

impl Mission {
    ghost use Rattle.std.specs.Prelude.{◌≡◌, IfErr, IfOk, None, OnOk};
    ghost use Rattle.fault_script.specs.Assumption.{first_outside};
    ghost use Rattle.fault_script.specs.Fits.{Fits};
    ghost use Rattle.scram_types.specs.Specification.{IsSpec};
    ghost use Rattle.coverage_check.specs.Missions.{IsMission, mission_of};
    ghost use Rattle.coverage_check.specs.Refusals.{IsNotWithin};

    /// Creates the mission of an accepted specification and a script that fits the specification.
    ///
    /// # Errors
    ///
    /// Returns the specification and the script if the script leaves the failure assumption.
    pub fn new(accepted: Accepted, script: Script) -> Result<Mission, NotWithin>
        requires { Fits accepted script }
        ensures mission { IfOk result (λ mission. mission ≡ mission_of accepted script) }
        ensures within { OnOk result (first_outside accepted script ≡ None) }
        ensures outside { IfErr result (λ refused. IsNotWithin accepted script refused) }
    {
        match within(accepted.spec(), &script) {
            Ok(()) => Ok(Mission { accepted, script }),
            Err(outside) => Err(NotWithin {
                accepted,
                script,
                outside,
            }),
        }
    }

    /// Returns the specification.
    pub fn spec(&self) -> &Spec
        ensures { result.now ≡ self.now.spec }
    {
        self.accepted.spec()
    }

    /// Returns the script.
    pub fn script(&self) -> &Script
        ensures { result.now ≡ self.now.script }
    {
        &self.script
    }

    /// States by its contract that the mission has an accepted specification, and a script that fits the
    /// specification and keeps to its failure assumption. The call has no effect.
    pub fn holds(&self)
        ensures spec { IsSpec self.now.spec }
        ensures mission { IsMission self.now }
    {
        let _start = self.accepted.spec().start;
    }
}

/// States that in each frame of a mission, and in the frame after the last one, the environment belongs to the
/// specification and is in scope. The environment of frame 0 is the opening environment, for which A8 checks the
/// start.
pub fn missions_keep_scope()
    ensures { MissionsKeepScope }
{}
