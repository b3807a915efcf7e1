//! The places at which the condition A13 does not hold, since the choice table misses a demand.

ghost use Rattle.std.specs.Prelude.{◌≡◌, ◌++◌, ◌<◌, OnOk};
ghost use Rattle.scram_types.specs.Lookups.{conf_id};
ghost use Rattle.scram_types.specs.Specification.{IsSpec};
ghost use Rattle.cube_cover.specs.Demands.{AreMisses};
ghost use Rattle.condition_breaks.specs.Breaks.{demand_breaks, demand_breaks_in, missed_at};

use crate::breaks::Break;
use crate::pushes::push_found;
use cube_cover::misses;
use scram_types::{ConfId, Env, NoMemory, Spec};
use std::alloc::Global;

// Appends the place of A13 for each configuration and each demand that the table misses from the configuration. A
// place contains the first environment in scope in which the demand is missed.
pub(crate) fn add_demand_breaks(
    alloc: Global,
    breaks: &mut Vec<Break>,
    spec: &Spec,
) -> Result<(), NoMemory>
    ensures { OnOk result (breaks.new.items ≡ breaks.old.items ++ demand_breaks spec.now) }
{
    for c in 0..spec.count_confs() {
        let found = misses(alloc, spec, ConfId(c))?;
        add_demand_breaks_in(breaks, spec, &found, c)?;
    }
    Ok(())
}

// Appends the places of A13 for configuration `c`. `found` contains for each demand the first environment in which
// the demand is missed.
fn add_demand_breaks_in(
    breaks: &mut Vec<Break>,
    spec: &Spec,
    found: &[Option<Env>],
    c: u8,
) -> Result<(), NoMemory>
    requires known { IsSpec spec.now }
    requires found { AreMisses spec.now (conf_id c) found.now }
    ensures { OnOk result (breaks.new.items ≡ breaks.old.items ++ demand_breaks_in spec.now c) }
{
    for k in 0..found.len() as u32 {
        push_found(breaks, missed_at(found, c, k))?;
    }
    Ok(())
}

fn missed_at(found: &[Option<Env>], c: u8, k: u32) -> Option<Break>
    ensures { result ≡ missed_at found.now c k }
{
    let first = found.get(k as usize)?;
    let env = (*first)?;
    Some(Break::DemandMissed(ConfId(c), k, env))
}
