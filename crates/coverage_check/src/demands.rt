//! The condition A13: the demands that the choice table must meet in each environment in scope.

ghost use Rattle.std.specs.Prelude.{◌≡◌, ◌<◌, IfOk, length};
ghost use Rattle.scram_types.specs.Lookups.{conf_id};
ghost use Rattle.scram_types.specs.Specification.{IsSpec};
ghost use Rattle.cube_cover.specs.Demands.{AreMisses};
ghost use Rattle.coverage_check.specs.Demands.{demand_refusal, demand_refusal_in, miss_shown};

use crate::shown::{Other, Shown};
use cube_cover::misses;
use scram_types::{ConfId, Env, NoMemory, Spec};
use std::alloc::Global;

// Returns the refusal for the first configuration from which the table misses a demand (A13), or `None` if the table
// misses no demand.
pub(crate) fn refuse_demand(alloc: Global, spec: &Spec) -> Result<Option<Shown>, NoMemory>
    ensures { IfOk result (λ shown. shown ≡ demand_refusal spec.now) }
{
    for c in 0..spec.count_confs() {
        let shown = refuse_demand_in(alloc, spec, c)?;
        if shown.is_some() {
            return Ok(shown);
        }
    }
    Ok(None)
}

// Returns the refusal for the first demand that the table misses from configuration `c`, or `None` if the table
// misses no demand from `c`.
fn refuse_demand_in(alloc: Global, spec: &Spec, c: u8) -> Result<Option<Shown>, NoMemory>
    requires known { IsSpec spec.now }
    requires inside { c < length spec.now.confs }
    ensures { IfOk result (λ shown. shown ≡ demand_refusal_in spec.now c) }
{
    let found = misses(alloc, spec, ConfId(c))?;
    Ok(first_miss(spec, &found, c))
}

fn first_miss(spec: &Spec, found: &[Option<Env>], c: u8) -> Option<Shown>
    requires known { IsSpec spec.now }
    requires found { AreMisses spec.now (conf_id c) found.now }
    ensures { result ≡ demand_refusal_in spec.now c }
{
    for k in 0..spec.demands.items().len() as u32 {
        let shown = show_miss(found, c, k);
        if shown.is_some() {
            return shown;
        }
    }
    None
}

fn show_miss(found: &[Option<Env>], c: u8, k: u32) -> Option<Shown>
    ensures { result ≡ miss_shown found.now c k }
{
    let least = found.get(k as usize)?;
    let env = (*least)?;
    Some(Shown::within(13, c, env, Other::Demand(k)))
}
