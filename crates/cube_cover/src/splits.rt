//! The splitting of cubes by another cube.

ghost use Rattle.std.specs.Prelude.{◌≡◌, ◌&&◌, ◌<◌, IfOk, OnOk, length, not};
ghost use Rattle.scram_types.specs.Bits.{count_below};
ghost use Rattle.scram_types.specs.Specification.{IsSpec};
ghost use Rattle.cube_cover.specs.Cubes.{Agree, Gain, IsSplit, allows, holds, may_be_up};

use crate::cubes::{Cube, inside_at, is_open, is_open_at, meet, outside_at};
use scram_types::{NoMemory, Spec};
use std::alloc::Global;

// The parts of cubes inside a cube, and the parts outside of it.
#[derive(Drop)]
pub(crate) struct Split {
    pub(crate) inside: Vec<Cube>,
    pub(crate) outside: Vec<Cube>,
}

// Returns the parts of cubes that lie inside and outside of the cube `by`.
pub(crate) fn split_by(
    alloc: Global,
    spec: &Spec,
    cubes: &[Cube],
    by: Cube,
) -> Result<Split, NoMemory>
    requires { IsSpec spec.now }
    ensures { IfOk result (λ split. IsSplit spec.now cubes.now by split.inside.items split.outside.items) }
{
    let mut inside = Vec::new(alloc);
    let mut outside = Vec::new(alloc);
    for cube in cubes {
        split_cube(spec, *cube, by, &mut inside, &mut outside)?;
    }
    Ok(Split { inside, outside })
}

// Appends the parts of a cube inside and outside of `by` to two lists. If the cube does not meet `by`, the whole cube
// lies outside.
fn split_cube(
    spec: &Spec,
    cube: Cube,
    by: Cube,
    inside: &mut Vec<Cube>,
    outside: &mut Vec<Cube>,
) -> Result<(), NoMemory>
    requires { IsSpec spec.now }
    ensures within { OnOk result (Gain spec.now inside.old.items inside.new.items (λ v. holds cube v && holds by v)) }
    ensures beyond { OnOk result (Gain spec.now outside.old.items outside.new.items (λ v. holds cube v && not (holds by v))) }
{
    if !meet(cube, by) {
        outside.push(cube)?;
        return Ok(());
    }
    let rest = cut(spec, cube, by, outside)?;
    push_in_scope(spec, rest, inside)?;
    Ok(())
}

// Cuts off the parts of a cube outside of the cube `by`, place by place, and appends them to `outside`. Returns the
// part of the cube inside of `by`.
fn cut(spec: &Spec, cube: Cube, by: Cube, outside: &mut Vec<Cube>) -> Result<Cube, NoMemory>
    requires { IsSpec spec.now }
    ensures beyond { OnOk result (Gain spec.now outside.old.items outside.new.items (λ v. holds cube v && not (holds by v))) }
    ensures within { IfOk result (λ rest. Agree spec.now (holds rest) (λ v. holds cube v && holds by v)) }
{
    let mut rest = cube;
    for x in 0..14 {
        push_outside_at(spec, rest, by, x, outside)?;
        rest = inside_at(rest, by, x);
    }
    Ok(rest)
}

fn push_outside_at(
    spec: &Spec,
    cube: Cube,
    by: Cube,
    x: u8,
    outside: &mut Vec<Cube>,
) -> Result<(), NoMemory>
    requires known { IsSpec spec.now }
    requires place { x < 14 }
    ensures { OnOk result (Gain spec.now outside.old.items outside.new.items (λ v. holds cube v && not (allows by v x))) }
{
    let part = outside_at(cube, by, x);
    if !is_open_at(part, x) {
        return Ok(());
    }
    push_in_scope(spec, part, outside)?;
    Ok(())
}

// Appends a cube to a list, unless more processors are down in each environment of the cube than the scope allows.
fn push_in_scope(spec: &Spec, cube: Cube, cubes: &mut Vec<Cube>) -> Result<(), NoMemory>
    requires { IsSpec spec.now }
    ensures { OnOk result (Gain spec.now cubes.old.items cubes.new.items (holds cube)) }
{
    if spec.halts < count_always_down(spec, cube) {
        return Ok(());
    }
    cubes.push(cube)?;
    Ok(())
}

// Returns the number of processors that are down in each environment that the cube holds.
fn count_always_down(spec: &Spec, cube: Cube) -> u8
    ensures { result ≡ count_below (λ p. not (may_be_up cube p)) (length spec.now.procs) }
{
    let mut down = 0;
    for p in 0..spec.procs.items().len() as u8 {
        if !is_open(cube, 6 + p, 0) {
            down += 1;
        }
    }
    down
}
