//! Missions whose specification and script are in two files.

ghost use Rattle.std.specs.Prelude.{ℕ, List, ◌∷◌, []};
ghost use Rattle.coverage_check.specs.Missions.{MissionParts};
ghost use Rattle.fault_script.specs.Fits.{Fits};
ghost use Rattle.form_base.specs.Endings.{Prepares};
ghost use Rattle.form_base.specs.mission_files.Answers.{FlightAnswers, ScriptAnswers, GivesFlight};
ghost use Rattle.form_base.specs.mission_files.Documents.{AsksScript};
ghost use Rattle.form_base.specs.mission_files.Missions.{JoinsMission, MakesMission};

use crate::acceptance::accept_specification;
use crate::loads::load;
use crate::mission_files::documents::ScriptDocument;
use crate::mission_files::lines::make_outside_line;
use crate::refusals::{Refusal, Refused};
use crate::specifications::Specification;
use coverage_check::{Accepted, Mission};
use scram_io::Files;
use scram_types::{Script, Spec};
use std::alloc::Global;

/// The names of the files of a mission's specification and script.
#[derive(Clone, Copy)]
pub struct MissionFiles<'a> {
    pub specification: &'a str,
    pub script: &'a str,
}

/// Reads the specification and the script, and returns their mission.
///
/// # Errors
///
/// Returns the refusal of the first file that is not read, is too long or breaks a rule. Returns a refusal if the
/// specification is not accepted or the script violates the failure assumption, and the out-of-memory refusal if
/// memory runs out.
pub fn read_mission<F: Files>(
    alloc: Global,
    named: MissionFiles<'_>,
    files: &mut F,
) -> Result<Mission, Refusal>
    ensures { (text : MissionParts → List ℕ) → Prepares (FlightAnswers text named.entry.specification.now named.entry.script.now) (GivesFlight text)
        (named.entry.specification.now ∷ named.entry.script.now ∷ []) (F.state files.old) (F.state files.new) result }
{
    match load(alloc, &Specification, named.specification, files) {
        Ok(spec) => read_script(alloc, spec, named.script, files),
        Err(refusal) => Err(refusal),
    }
}

fn read_script<F: Files>(
    alloc: Global,
    spec: Spec,
    script: &str,
    files: &mut F,
) -> Result<Mission, Refusal>
    ensures { (text : MissionParts → List ℕ) → Prepares (AsksScript spec script.now (ScriptAnswers text spec)) (GivesFlight text)
        (script.now ∷ []) (F.state files.old) (F.state files.new) result }
{
    match load(alloc, &ScriptDocument { spec: &spec }, script, files) {
        Ok(script) => make_mission(alloc, spec, script),
        Err(refusal) => {
            drop(spec);
            Err(refusal)
        }
    }
}

/// Returns the mission of a specification and a script that fits it.
///
/// # Errors
///
/// Returns a refusal if the specification is not accepted or the script violates the failure assumption, and the
/// out-of-memory refusal if memory runs out.
pub fn make_mission(alloc: Global, spec: Spec, script: Script) -> Result<Mission, Refusal>
    requires { Fits spec script }
    ensures { MakesMission spec script result }
{
    match accept_specification(alloc, spec) {
        Ok(accepted) => join(accepted, script),
        Err(refusal) => {
            drop(script);
            Err(refusal)
        }
    }
}

fn join(accepted: Accepted, script: Script) -> Result<Mission, Refusal>
    requires { Fits accepted script }
    ensures { JoinsMission accepted script result }
{
    match Mission::new(accepted, script) {
        Ok(mission) => Ok(mission),
        Err(refused) => {
            let line = make_outside_line(&refused.outside);
            drop(refused);
            Err(Refusal::new(Refused::Assumption, line))
        }
    }
}
