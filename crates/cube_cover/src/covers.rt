//! The computation of the cover of a configuration.

ghost use Rattle.std.specs.Prelude.{◌≡◌, ◌+◌, ◌^◌, ◌<◌, ◌==◌, IfOk, if◌then◌else◌, length, true};
ghost use Rattle.scram_types.specs.Specification.{IsSpec};
ghost use Rattle.cube_cover.specs.Covers.{IsCover, IsLeastEnv, earlier_env};
ghost use Rattle.cube_cover.specs.Cubes.{Agree, IsInScope, holders, is_in};
ghost use Rattle.cube_cover.specs.Findings.{IsFinding, is_chosen_at, is_left_at};
ghost use Rattle.cube_cover.specs.Regions.{AreAll, MarksMore};

use crate::answers::Cover;
use crate::cubes::{Cube, running, whole};
use crate::leasts::{earlier_env, least_of};
use crate::regions::{Region, Regions, assign, regions_of, with_other_target, with_target};
use crate::splits::split_by;
use scram_types::{ConfId, Env, NoMemory, Spec};
use std::alloc::Global;

// The outcome of one target over the environments in which it is chosen.
#[derive(Clone, Copy)]
pub(crate) struct Finding {
    is_chosen: bool,
    not_runnable: Option<Env>,
    unsettled: Option<Env>,
}

/// Returns the cover of configuration `i`: its possible targets, and the first environments in scope in which a
/// requirement on the table is broken.
///
/// # Errors
///
/// Returns an error if memory runs out.
pub fn cover(alloc: Global, spec: &Spec, i: ConfId) -> Result<Cover, NoMemory>
    requires { i.0 < length spec.now.confs }
    ensures { IfOk result (λ cover. IsCover spec.now i cover) }
{
    let count = spec.count_confs();
    let found = regions_of(alloc, spec, i, all_cubes(alloc, spec)?)?;
    let unfit = least_of(spec, &found.unruled);
    let regions = all_regions(found, i)?;
    let mut cover = Cover {
        targets: 0,
        unfit,
        not_runnable: None,
        unsettled: None,
    };
    for t in 0..count {
        let finding = find(alloc, spec, i, t, &regions)?;
        cover = with_finding(spec, &cover, t, &finding);
    }
    Ok(cover)
}

// Returns a vector with one cube, which holds all environments of the specification.
pub(crate) fn all_cubes(alloc: Global, spec: &Spec) -> Result<Vec<Cube>, NoMemory>
    requires { IsSpec spec.now }
    ensures all { IfOk result (λ cubes. Agree spec.now (is_in cubes.items) (λ v. true)) }
    ensures once { IfOk result (λ cubes. (v : Env) → IsInScope spec.now v → holders cubes.items v ≡ 1) }
{
    let mut cubes = Vec::new(alloc);
    cubes.push(whole(spec))?;
    Ok(cubes)
}

// Returns the regions `found.ruled`, followed by a region with target `i` for each cube of `found.unruled`.
pub(crate) fn all_regions(found: Regions, i: ConfId) -> Result<Vec<Region>, NoMemory>
    ensures { IfOk result (λ regions. MarksMore found.ruled.items regions.items found.unruled.items i) }
{
    let mut regions = found.ruled;
    assign(&mut regions, &found.unruled, i)?;
    Ok(regions)
}

// Returns the finding on target `t` in the regions of configuration `i`.
fn find(
    alloc: Global,
    spec: &Spec,
    i: ConfId,
    t: u8,
    regions: &[Region],
) -> Result<Finding, NoMemory>
    requires known { IsSpec spec.now }
    requires regions { AreAll spec.now i regions.now }
    ensures { IfOk result (λ finding. IsFinding spec.now i t finding) }
{
    let cubes = with_target(alloc, regions, t)?;
    let is_chosen = least_of(spec, &cubes).is_some();
    let parts = split_by(alloc, spec, &cubes, running(spec, ConfId(t)))?;
    let not_runnable = least_of(spec, &parts.outside);
    let unsettled = find_unsettled(alloc, spec, i, t, cubes)?;
    Ok(Finding {
        is_chosen,
        not_runnable,
        unsettled,
    })
}

// Returns the first environment in scope, by number, that the cubes hold and in which the table chooses a
// configuration other than `t` from `t`, or `None` if there is no such environment. If `t` is `i`, the result is
// `None`.
fn find_unsettled(
    alloc: Global,
    spec: &Spec,
    i: ConfId,
    t: u8,
    cubes: Vec<Cube>,
) -> Result<Option<Env>, NoMemory>
    requires known { IsSpec spec.now }
    requires chosen { Agree spec.now (is_in cubes.items) (is_chosen_at spec.now i t) }
    ensures { IfOk result (IsLeastEnv spec.now (is_left_at spec.now i t)) }
{
    if t == i.0 {
        return Ok(None);
    }
    let found = regions_of(alloc, spec, ConfId(t), cubes)?;
    let others = with_other_target(alloc, &found.ruled, t)?;
    Ok(least_of(spec, &others))
}

fn with_finding(spec: &Spec, before: &Cover, t: u8, finding: &Finding) -> Cover
    requires target { t < 12 }
    requires few { before.now.targets < 2 ^ t }
    ensures targets { result.targets ≡ before.now.targets + (if finding.now.is_chosen then 2 ^ t else 0) }
    ensures unfit { result.unfit ≡ before.now.unfit }
    ensures not_runnable { result.not_runnable ≡ earlier_env spec.now before.now.not_runnable finding.now.not_runnable }
    ensures unsettled { result.unsettled ≡ earlier_env spec.now before.now.unsettled finding.now.unsettled }
{
    let target = if finding.is_chosen { 1 << t } else { 0 };
    Cover {
        targets: before.targets + target,
        unfit: before.unfit,
        not_runnable: earlier_env(spec, before.not_runnable, finding.not_runnable),
        unsettled: earlier_env(spec, before.unsettled, finding.unsettled),
    }
}
