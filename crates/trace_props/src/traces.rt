//! The trace of a mission, flown on one thread.

ghost use Rattle.std.specs.Prelude.{IfOk};
ghost use Rattle.trace_props.specs.Missions.{IsTraceOf};

use crate::missions::reconfigurations_are_assured;
use app_model::Rack;
use coverage_check::Mission;
use frame_model::{reports, rows};
use scram_types::{Flown, List, NoMemory};
use std::alloc::Global;

/// Flies a mission frame by frame. Returns one row for each frame of its script, and the reconfigurations that are
/// read off the rows. SP1 to SP6 hold for both. Returns an error only if memory runs out.
#[tactic(auto, using(crate::proofs::Sizes::few_reports))]
pub fn one_thread(alloc: Global, mission: &Mission, racks: Vec<Rack>) -> Result<Flown, NoMemory>
    ensures { IfOk result (IsTraceOf mission.now) }
{
    mission.holds();
    reconfigurations_are_assured();
    let rows = rows(alloc, mission.spec(), mission.script(), racks)?;
    let reports = reports(alloc, mission.spec(), &rows)?;
    Ok(Flown {
        rows: List::of(rows),
        reports: List::of(reports),
    })
}
