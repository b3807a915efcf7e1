//! The first environments in which the choice table misses a demand.

ghost use Rattle.std.specs.Prelude.{◌≡◌, ◌&&◌, ◌<◌, IfOk, length};
ghost use Rattle.scram_types.specs.Bits.{bits_below};
ghost use Rattle.scram_types.specs.Lookups.{conf_id};
ghost use Rattle.scram_types.specs.Specification.{IsSpec};
ghost use Rattle.choice_table.specs.Demands.{is_met};
ghost use Rattle.cube_cover.specs.Covers.{IsLeastEnv};
ghost use Rattle.cube_cover.specs.Cubes.{holds};
ghost use Rattle.cube_cover.specs.Demands.{AreMisses, is_outside, misses};
ghost use Rattle.cube_cover.specs.Regions.{AreAll, is_held, is_marked};

use crate::covers::{all_cubes, all_regions};
use crate::cubes::{Cube, both, demand_cube, meet};
use crate::leasts::{earlier_env, least_env};
use crate::regions::{Region, regions_of};
use choice_table::{applies_from, is_met};
use scram_types::bits::is_in;
use scram_types::{ConfId, Demand, Env, NoMemory, Spec};
use std::alloc::Global;

/// Returns for each demand, in order, the first environment in scope, by number, in which the table misses the demand
/// from configuration `i`, or `None` if there is no such environment. A demand is missed if it applies to the
/// environment and to `i`, and the chosen configuration does not meet it.
///
/// # Errors
///
/// Returns an error if memory runs out.
pub fn misses(alloc: Global, spec: &Spec, i: ConfId) -> Result<Vec<Option<Env>>, NoMemory>
    requires { i.0 < length spec.now.confs }
    ensures { IfOk result (λ found. AreMisses spec.now i found.items) }
{
    let mut found = Vec::new(alloc);
    if spec.demands.items().is_empty() {
        return Ok(found);
    }
    let regions = chosen_regions(alloc, spec, i)?;
    for demand in spec.demands.items() {
        found.push(least_miss(spec, i, demand, &regions))?;
    }
    Ok(found)
}

// Returns the regions of configuration `i`. In all environments of a region, the same target is chosen.
fn chosen_regions(alloc: Global, spec: &Spec, i: ConfId) -> Result<Vec<Region>, NoMemory>
    requires { IsSpec spec.now }
    ensures { IfOk result (λ regions. AreAll spec.now i regions.items) }
{
    let found = regions_of(alloc, spec, i, all_cubes(alloc, spec)?)?;
    let regions = all_regions(found, i)?;
    Ok(regions)
}

// Returns the first environment in scope, by number, in which the table misses a demand from configuration `i`, or
// `None` if there is no such environment. `regions` are the regions of `i`.
fn least_miss(spec: &Spec, i: ConfId, demand: &Demand, regions: &[Region]) -> Option<Env>
    requires known { IsSpec spec.now }
    requires inside { i.0 < length spec.now.confs }
    requires regions { AreAll spec.now i regions.now }
    ensures { IsLeastEnv spec.now (misses spec.now demand.now i) result }
{
    if !applies_from(demand, i) {
        return None;
    }
    least_outside(spec, regions, met_by(spec, demand), demand_cube(demand))
}

// Returns the set of configurations that meet a demand, as bits.
fn met_by(spec: &Spec, demand: &Demand) -> u16
    ensures { result ≡ bits_below (λ c. is_met spec.now demand.now (conf_id c)) 12 }
{
    let mut bits = 0;
    for c in 0..12 {
        if is_met(spec, demand, ConfId(c)) {
            bits += 1 << c;
        }
    }
    bits
}

// Returns the first environment in scope, by number, that the cube `by` holds and that lies in a region whose target
// is not in the set `met`. Returns `None` if there is no such environment.
fn least_outside(spec: &Spec, regions: &[Region], met: u16, by: Cube) -> Option<Env>
    requires { IsSpec spec.now }
    ensures { IsLeastEnv spec.now (λ v. is_marked regions.now (is_outside met) v && holds by v) result }
{
    let mut least = None;
    for region in regions {
        least = earlier_env(spec, least, least_in(spec, region, met, by));
    }
    least
}

fn least_in(spec: &Spec, region: &Region, met: u16, by: Cube) -> Option<Env>
    requires { IsSpec spec.now }
    ensures { IsLeastEnv spec.now (λ v. is_held (is_outside met) v region.now && holds by v) result }
{
    if is_in(met, region.target.0) {
        return None;
    }
    if !meet(region.cube, by) {
        return None;
    }
    least_env(spec, both(region.cube, by))
}
