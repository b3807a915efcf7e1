//! The number of environments in scope that cubes hold.

ghost use Rattle.std.specs.Prelude.{◌≡◌, ◌+◌, ◌*◌, ◌-◌, ◌^◌, ◌<◌, ◌≤◌, length, replicate};
ghost use Rattle.scram_types.specs.Bits.{count_below};
ghost use Rattle.scram_types.specs.Specification.{IsSpec};
ghost use Rattle.choice_table.specs.Numbering.{value_count};
ghost use Rattle.cube_cover.specs.Cubes.{AreDisjoint, holds, is_in};
ghost use Rattle.cube_cover.specs.Sizes.{allows_up, are_open, count_where, digit_of_processor, is_down_held, is_open_digit, open_ways};

use crate::cubes::{Cube, count_values, is_open};
use choice_table::in_scope;
use choice_table::numbering::{count_sets, up_beside};
use scram_types::bits::has_bit;
use scram_types::{Env, Spec};

// Returns the number of environments in scope that the cubes hold. No two cubes may hold the same environment in scope.
pub(crate) fn count_held(spec: &Spec, cubes: &[Cube]) -> u32
    requires known { IsSpec spec.now }
    requires disjoint { AreDisjoint spec.now cubes.now }
    ensures { result ≡ count_where spec.now (is_in cubes.now) }
{
    let mut count = 0;
    for cube in cubes {
        count += size_of(spec, *cube);
    }
    count
}

// Returns the number of environments in scope that a cube holds. The result is the product of two numbers: the number
// of sets of processors that may be down, and the number of ways to choose one open value for each factor. It is 0 if
// `are_zeros_open` returns `false`.
fn size_of(spec: &Spec, cube: Cube) -> u32
    requires { IsSpec spec.now }
    ensures { result ≡ count_where spec.now (holds cube) }
{
    if are_zeros_open(spec, cube) {
        count_sets_held(spec, cube) * count_combinations(spec, cube)
    } else {
        0
    }
}

// Returns `true` if digit 0 is open at each place below 6 that belongs to no factor. All environments have digit 0 at
// these places.
fn are_zeros_open(spec: &Spec, cube: Cube) -> bool
    requires { IsSpec spec.now }
    ensures { result ≡ are_open cube (length spec.now.factors) (replicate (6 - length spec.now.factors) 0) }
{
    for x in spec.count_factors()..6 {
        if !is_open(cube, x, 0) {
            return false;
        }
    }
    true
}

// Returns the number of sets of processors such that the scope and the cube allow exactly these processors to be
// down.
fn count_sets_held(spec: &Spec, cube: Cube) -> u32
    requires { IsSpec spec.now }
    ensures value { result ≡ count_below (is_down_held spec.now cube) (2 ^ length spec.now.procs) }
    ensures most { result ≤ 256 }
{
    let mut sets = 0;
    for down in 0..count_sets(spec) {
        if is_down_held(spec, cube, down) {
            sets += 1;
        }
    }
    sets
}

// Returns `true` if the scope and the cube allow exactly the processors of the set `down` to be down.
fn is_down_held(spec: &Spec, cube: Cube, down: u32) -> bool
    requires known { IsSpec spec.now }
    requires set { down < 2 ^ length spec.now.procs }
    ensures { result ≡ is_down_held spec.now cube down }
{
    let up = up_beside(spec, down);
    let env = Env {
        up,
        factors: [0; 6],
    };
    allows_up(cube, up) && in_scope(spec, &env)
}

// Returns `true` if the cube allows exactly the processors of the set `up` to be up.
fn allows_up(cube: Cube, up: u8) -> bool
    ensures { result ≡ allows_up cube up }
{
    for p in 0..8 {
        if !is_open(cube, 6 + p, digit_of_processor(up, p)) {
            return false;
        }
    }
    true
}

fn digit_of_processor(up: u8, p: u8) -> u8
    requires { p < 8 }
    ensures value { result ≡ digit_of_processor up p }
    ensures few { result < 4 }
{
    if has_bit(up, p) { 0 } else { 1 }
}

// Returns the number of ways to choose one open value for each factor.
fn count_combinations(spec: &Spec, cube: Cube) -> u32
    requires { IsSpec spec.now }
    ensures value { result ≡ open_ways cube 0 spec.now.factors }
    ensures most { result ≤ 4096 }
{
    let mut product = 1;
    for x in 0..spec.count_factors() {
        product *= count_open(spec, cube, x);
    }
    product
}

// Returns the number of open values of factor `x`.
fn count_open(spec: &Spec, cube: Cube, x: u8) -> u32
    requires known { IsSpec spec.now }
    requires place { x < 6 }
    ensures value { result ≡ count_below (is_open_digit cube x) (value_count spec.now.factors x) }
    ensures most { result ≤ 4 }
{
    let mut open = 0;
    for d in 0..count_values(spec, x) {
        if is_open(cube, x, d) {
            open += 1;
        }
    }
    open
}
