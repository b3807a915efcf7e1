//! The scope split into regions, in each of which the choice table chooses one target.

ghost use Rattle.std.specs.Prelude.{◌&&◌, ◌==◌, IfOk, OnOk, not};
ghost use Rattle.scram_types.specs.Specification.{IsSpec};
ghost use Rattle.choice_table.specs.Choices.{has_source, rule_fits};
ghost use Rattle.cube_cover.specs.Cubes.{Agree, is_in};
ghost use Rattle.cube_cover.specs.Regions.{AreRegions, HoldsMarked, HoldsMore, MarksMore, Rule};

use crate::cubes::{Cube, rule_cube};
use crate::splits::split_by;
use choice_table::has_source;
use scram_types::{Choice, ConfId, NoMemory, Spec};
use std::alloc::Global;

// A cube of environments, and the target that is chosen in all of them.
#[derive(Clone, Copy)]
pub(crate) struct Region {
    pub(crate) cube: Cube,
    pub(crate) target: ConfId,
}

// The cubes of a configuration, divided by its rules: the regions that some rule fits, with their targets, and the
// remaining cubes.
#[derive(Drop)]
pub(crate) struct Regions {
    pub(crate) ruled: Vec<Region>,
    pub(crate) unruled: Vec<Cube>,
}

// A configuration from which rules choose targets, and its specification.
#[derive(Clone, Copy)]
struct Source<'a> {
    spec: &'a Spec,
    c: ConfId,
}

// Divides cubes by the rules of configuration `c`. Returns the regions that some rule fits, each with the target of
// the first such rule, and the cubes that no rule fits.
pub(crate) fn regions_of(
    alloc: Global,
    spec: &Spec,
    c: ConfId,
    cubes: Vec<Cube>,
) -> Result<Regions, NoMemory>
    requires { IsSpec spec.now }
    ensures { IfOk result (λ found. AreRegions spec.now c cubes.items found.ruled.items found.unruled.items) }
{
    let mut ruled = Vec::new(alloc);
    let mut open = cubes;
    for rule in spec.rules.items() {
        open = apply_rule(alloc, &Source { spec, c }, rule, open, &mut ruled)?;
    }
    Ok(Regions {
        ruled,
        unruled: open,
    })
}

// Moves the environments that a rule fits from the cubes to the regions, and returns the cubes of the remaining
// environments.
fn apply_rule(
    alloc: Global,
    source: &Source,
    rule: &Choice,
    cubes: Vec<Cube>,
    ruled: &mut Vec<Region>,
) -> Result<Vec<Cube>, NoMemory>
    requires { IsSpec source.now.spec.now }
    ensures rest { IfOk result (λ rest. Agree source.now.spec.now (is_in rest.items) (λ v. is_in cubes.items v && not (rule_fits source.now.c v rule.now))) }
    ensures ruled { OnOk result (Rule source.now.spec.now source.now.c rule.now cubes.items ruled.old.items ruled.new.items) }
{
    if !has_source(rule.from, source.c) {
        return Ok(cubes);
    }
    if cubes.is_empty() {
        return Ok(cubes);
    }
    let parts = split_by(alloc, source.spec, &cubes, rule_cube(rule))?;
    assign(ruled, &parts.inside, rule.to)?;
    Ok(parts.outside)
}

// Appends cubes to the regions, each with the same target.
pub(crate) fn assign(
    regions: &mut Vec<Region>,
    cubes: &[Cube],
    target: ConfId,
) -> Result<(), NoMemory>
    ensures { OnOk result (MarksMore regions.old.items regions.new.items cubes.now target) }
{
    for cube in cubes {
        regions.push(Region {
            cube: *cube,
            target,
        })?;
    }
    Ok(())
}

// Returns the cubes of the regions with target `t`.
pub(crate) fn with_target(alloc: Global, regions: &[Region], t: u8) -> Result<Vec<Cube>, NoMemory>
    ensures { IfOk result (λ cubes. HoldsMarked regions.now (λ j. j == t) cubes.items) }
{
    let mut cubes = Vec::new(alloc);
    for region in regions {
        push_where(&mut cubes, region.cube, region.target.0 == t)?;
    }
    Ok(cubes)
}

// Returns the cubes of the regions whose target is not `t`.
pub(crate) fn with_other_target(
    alloc: Global,
    regions: &[Region],
    t: u8,
) -> Result<Vec<Cube>, NoMemory>
    ensures { IfOk result (λ cubes. HoldsMarked regions.now (λ j. not (j == t)) cubes.items) }
{
    let mut cubes = Vec::new(alloc);
    for region in regions {
        push_where(&mut cubes, region.cube, region.target.0 != t)?;
    }
    Ok(cubes)
}

// Appends a cube to a list if `is_wanted` is `true`.
fn push_where(cubes: &mut Vec<Cube>, cube: Cube, is_wanted: bool) -> Result<(), NoMemory>
    ensures { OnOk result (HoldsMore cubes.old.items cubes.new.items cube is_wanted) }
{
    if !is_wanted {
        return Ok(());
    }
    cubes.push(cube)?;
    Ok(())
}
