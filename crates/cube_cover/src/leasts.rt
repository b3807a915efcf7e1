//! The first environments, by number, that cubes hold.

ghost use Rattle.std.specs.Prelude.{◌≡◌, ◌*◌, ◌+◌, ◌<◌, length};
ghost use Rattle.scram_types.specs.Bits.{bits_below};
ghost use Rattle.scram_types.specs.Specification.{IsSpec};
ghost use Rattle.cube_cover.specs.Covers.{IsLeastEnv, earlier_env};
ghost use Rattle.cube_cover.specs.Cubes.{HasDigits, holds, is_in, may_be_up};
ghost use Rattle.cube_cover.specs.Leasts.{belongs, least_digit, least_env};

use crate::cubes::{Cube, digit_in, is_digit, is_open};
use choice_table::{in_scope, number_of};
use scram_types::bits::has_bit;
use scram_types::{Env, Spec};

// Returns the environment in scope with the smallest number that one of the cubes holds, or `None` if the cubes hold
// no environment in scope.
pub(crate) fn least_of(spec: &Spec, cubes: &[Cube]) -> Option<Env>
    requires { IsSpec spec.now }
    ensures { IsLeastEnv spec.now (is_in cubes.now) result }
{
    let mut least = None;
    for cube in cubes {
        least = earlier_env(spec, least, least_env(spec, *cube));
    }
    least
}

// Returns the environment with the smaller number of two optional environments, or the first of them if their numbers
// are equal. If only one environment is present, returns that environment. If neither is present, returns `None`.
pub(crate) fn earlier_env(spec: &Spec, one: Option<Env>, other: Option<Env>) -> Option<Env>
    ensures { result ≡ earlier_env spec.now one other }
{
    match (one, other) {
        (None, None) => None,
        (Some(_), None) => one,
        (None, Some(_)) => other,
        (Some(first), Some(second)) => {
            if number_of(spec, &first) <= number_of(spec, &second) {
                one
            } else {
                other
            }
        }
    }
}

// Returns the environment in scope with the smallest number that a cube holds, or `None` if the cube holds no
// environment in scope.
pub(crate) fn least_env(spec: &Spec, cube: Cube) -> Option<Env>
    requires { IsSpec spec.now }
    ensures { IsLeastEnv spec.now (holds cube) result }
{
    let env = make_least(spec, cube);
    if belongs(spec, &env) && holds(cube, &env) && in_scope(spec, &env) {
        Some(env)
    } else {
        None
    }
}

// Returns the environment with the smallest open digit of a cube at each place. Processors whose number is not below
// the number of processors are not up.
fn make_least(spec: &Spec, cube: Cube) -> Env
    ensures { result ≡ least_env spec.now cube }
{
    Env {
        up: least_up(spec, cube),
        factors: [
            least_digit(cube, 0),
            least_digit(cube, 1),
            least_digit(cube, 2),
            least_digit(cube, 3),
            least_digit(cube, 4),
            least_digit(cube, 5),
        ],
    }
}

fn least_up(spec: &Spec, cube: Cube) -> u8
    ensures { result ≡ bits_below (may_be_up cube) (length spec.now.procs) }
{
    let mut up = 0;
    for p in 0..spec.procs.items().len() as u8 {
        if is_open(cube, 6 + p, 0) {
            up += 1 << p;
        }
    }
    up
}

// Returns the smallest digit that is open at place `x`, or 3 if none of the digits 0 to 2 is open.
#[tactic(auto, unfolding(crate::specs::Leasts::least_digit))]
fn least_digit(cube: Cube, x: u8) -> u8
    requires { x < 14 }
    ensures { result ≡ least_digit cube x }
{
    if is_open(cube, x, 0) {
        0
    } else if is_open(cube, x, 1) {
        1
    } else if is_open(cube, x, 2) {
        2
    } else {
        3
    }
}

// Returns `true` if each factor of an environment has a value that the specification allows.
fn belongs(spec: &Spec, env: &Env) -> bool
    ensures { result ≡ belongs spec.now env.now }
{
    for x in 0..6 {
        if !is_digit(spec, x, env.factors[usize::from(x)]) {
            return false;
        }
    }
    true
}

pub(crate) fn holds(cube: Cube, env: &Env) -> bool
    requires { HasDigits env.now }
    ensures { result ≡ holds cube env.now }
{
    for x in 0..14 {
        if !is_open(cube, x, digit_in(env, x)) {
            return false;
        }
    }
    true
}
